//! A client hears the first message in the pipe to it.

ghost use Rattle.{sim_client.specs.{ClientWords.{IsSound, life, setup_in}, Lives.shows}, sim_pipes.specs.Pipes.pipe_in};
ghost use Rattle.sim_session.specs.{Printing.{has_happened, heard_events, is_state as is_state_in, refusal_in}, Standing.{Loads, MayHear}};
ghost use Rattle.std.specs.Prelude.{IfOk, IsOk, [], ◌≡◌};
ghost use Rattle.sim_base.specs.declared.step.Event.TheVariants as event;
ghost use Rattle.sim_base.specs.declared.step.Step.TheVariants as step;

use crate::acting::ups_of;
use crate::printing::{one, shown};
use sim_base::{Event, Events, Global, Items, OutOfMemory};
use sim_client::{Client, Did};
use sim_pipes::Exchange;
use sim_system::System;
use sim_wire::Down;

// Why something is refused, in a message that says so.
fn refusal_of(down: &Down) -> Option<u8>
    ensures { result ≡ refusal_in down.now }
{
    match down {
        Down::Refused { code } => Some(*code),
        Down::State { .. } => None,
        Down::Ask { .. } => None,
        Down::Command { .. } => None,
        Down::Release { .. } => None,
        Down::Notice { .. } => None,
    }
}

// Whether a message hands on a state.
fn is_state(down: &Down) -> bool
    ensures { result ≡ is_state_in down.now }
{
    matches!(down, Down::State { .. })
}

// The event of a state that a client has loaded.
fn loaded(alloc: Global, client: &Client<'_>, number: u8) -> Result<Events, OutOfMemory>
    requires { IsSound client.now ⟦<dyn System as System>⟧ }
    ensures { IfOk result (λ events. events ≡ shows (setup_in client.now) (event.Load number) (life client.now)) }
{
    let Some(seen) = shown(client, client.digest()) else {
        return Ok(Items::new(alloc));
    };
    let turn = seen.0;
    let digest = seen.1;
    one(
        alloc,
        Event::Load {
            client: number,
            turn,
            digest,
        },
    )
}

// What a message is to its client: why it is refused, where it is, and whether it is a state.
#[derive(Clone, Copy)]
struct Message {
    refusal: Option<u8>,
    is_state: bool,
}

// What is printed of a message that a client heard, by what it did.
fn heard(
    alloc: Global,
    client: &Client<'_>,
    number: u8,
    message: Message,
    did: &Did,
) -> Result<Events, OutOfMemory>
    requires { IsSound client.now ⟦<dyn System as System>⟧ }
    ensures { IfOk result
        (λ events. events ≡ heard_events (setup_in client.now) number (life client.now) message.refusal message.is_state (has_happened did.now)) }
{
    if let Some(code) = message.refusal {
        return one(
            alloc,
            Event::Refused {
                client: number,
                code,
            },
        );
    }
    match did {
        Did::Done { .. } if message.is_state => loaded(alloc, client, number),
        _ => Ok(Items::new(alloc)),
    }
}

/// A client hears the first message in the pipe to it, if there is one, and what it says goes up.
pub fn down(
    alloc: Global,
    client: &mut Client<'_>,
    exchange: &mut Exchange,
    number: u8,
) -> Result<Events, OutOfMemory>
    requires { MayHear ⟦<dyn System as System>⟧ number client.old exchange.old }
    ensures loads { Loads ⟦<dyn System as System>⟧ (step.Down number) result client.old exchange.old client.new exchange.new }
    ensures idle { pipe_in exchange.old.downs number ≡ [] → IsOk result }
{
    let Some(down) = exchange.fall(number)? else {
        return Ok(Items::new(alloc));
    };
    let refusal = refusal_of(&down);
    let is_state = is_state(&down);
    let did = client.hear(down)?;
    let message = Message { refusal, is_state };
    let events = heard(alloc, client, number, message, &did)?;
    let ups = ups_of(alloc, did);
    exchange.send(number, ups.as_slice())?;
    Ok(events)
}
