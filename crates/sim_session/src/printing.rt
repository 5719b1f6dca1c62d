//! The events of what a client did.

ghost use Rattle.{sim_client.specs.ClientWords.{digest_of, IsSound, life, setup_in}, sim_session.specs.Printing.{said_events as events_said, shown_of}};
ghost use Rattle.std.specs.Prelude.{IfOk, IsOk, [], ◌∷◌, ◌≡◌};

use sim_base::{Event, Events, Global, Items, OutOfMemory};
use sim_client::Client;
use sim_system::System;
use sim_wire::Up;

/// One event.
pub fn one(alloc: Global, event: Event) -> Result<Events, OutOfMemory>
    ensures { IfOk result (λ events. events ≡ event ∷ []) }
{
    let mut events = Items::new(alloc);
    events.push(event)?;
    Ok(events)
}

/// What is printed of a wish to join or an order that a client sends.
pub fn said_events(alloc: Global, client: u8, ups: &[Up]) -> Result<Events, OutOfMemory>
    ensures events { IfOk result (λ events. events ≡ events_said client ups.now) }
    ensures none { ups.now ≡ [] → IsOk result }
{
    match ups.first() {
        Some(Up::Join) => one(alloc, Event::Join { client }),
        Some(Up::Command { turn, .. }) => one(
            alloc,
            Event::Order {
                client,
                turn: *turn,
            },
        ),
        Some(Up::Report { .. }) => Ok(Items::new(alloc)),
        Some(Up::Done { .. }) => Ok(Items::new(alloc)),
        Some(Up::State { .. }) => Ok(Items::new(alloc)),
        None => Ok(Items::new(alloc)),
    }
}

/// The turn that a client shows that is on, beside its digest.
pub fn shown(client: &Client<'_>, digest: Option<[u8; 16]>) -> Option<(u32, [u8; 16])>
    requires sound { IsSound client.now ⟦<dyn System as System>⟧ }
    requires digest { digest ≡ digest_of (setup_in client.now) (life client.now) }
    ensures { result ≡ shown_of (setup_in client.now) (life client.now) }
{
    match (client.turn(), digest) {
        (Some(turn), Some(digest)) => Some((turn, digest)),
        _ => None,
    }
}
