//! The kinds of step, each by one client beside the server and the pipes.

ghost use Rattle.{sim_base.specs.{declared.setup.Setup.Setup as AnySetup, Limits.HasFewIds}, sim_client.specs.ClientWords.{HasDigest, IsSound, life, setup_in}};
ghost use Rattle.{sim_client.specs.Lives.{bends, joins, orders, plays, shows}, sim_pipes.specs.Pipes.Conveys, sim_plain.specs.Messages.carry_up};
ghost use Rattle.sim_plain_session.specs.{Clients.Acted, Sessions.{acts, client_of as client_in, events_by, Session, spelled, stepped_by}};
ghost use Rattle.sim_server.specs.Standing.{IsClient};
ghost use Rattle.sim_session.specs.Printing.{has_happened, is_off as is_off_of, played_events, said_events as events_said};
ghost use Rattle.{sim_session.specs.Standing.{Acts, IsSmallStep, Loads, MayAct, MayHear, said_by, StandBeside}, sim_wire.specs.Reading.IsSmallUp};
ghost use Rattle.std.specs.Prelude.{All, false, IfOk, IsOk, map, None, OnOk, true, [], ◌≡◌};
ghost use Rattle.sim_base.specs.declared.step.Event.TheVariants as event;
ghost use Rattle.sim_base.specs.declared.step.Step.TheVariants as step;

use crate::hearing::down;
use crate::printing::{one, said_events, shown};
use sim_base::{Command, Event, Events, Fixed, Global, Items, OutOfMemory, Step};
use sim_client::{Client, Did, Digests, Played, Ups};
use sim_pipes::Exchange;
use sim_system::System;
use sim_wire::Up;

/// What a client said, if it did anything.
pub fn ups_of(alloc: Global, did: Did) -> Ups
    ensures { result ≡ said_by did }
{
    match did {
        Did::Idle => Items::new(alloc),
        Did::Done { up } => up,
    }
}

// Sends what a client says, and answers what is printed of it.
fn tell(
    alloc: Global,
    exchange: &mut Exchange,
    number: u8,
    ups: &[Up],
) -> Result<Events, OutOfMemory>
    requires client { IsClient exchange.old.server number }
    requires small { All IsSmallUp ups.now }
    ensures sent { (setup : AnySetup) (s : Session) (acted : Acted) → Conveys setup exchange.old s → ups.now ≡ map (carry_up (spelled setup)) acted.says
        → OnOk result (Conveys setup exchange.new (acts number acted s)) }
    ensures printed { IfOk result (λ events. events ≡ events_said number ups.now) }
    ensures none { ups.now ≡ [] → IsOk result }
    ensures rules { exchange.new.server.rules ≡ exchange.old.server.rules }
{
    exchange.send(number, ups)?;
    said_events(alloc, number, ups)
}

// A client gives a command, which goes up.
fn order(
    alloc: Global,
    client: &mut Client<'_>,
    exchange: &mut Exchange,
    number: u8,
    command: &Command,
) -> Result<Events, OutOfMemory>
    requires may { MayAct ⟦<dyn System as System>⟧ number client.old exchange.old }
    requires few { HasFewIds command.now }
    ensures { Acts ⟦<dyn System as System>⟧ (step.Order number command.now) (orders (setup_in client.old) command.now (life client.old) ≡ None) result
        client.old exchange.old client.new exchange.new }
{
    let did = client.order(command)?;
    let ups = ups_of(alloc, did);
    tell(alloc, exchange, number, ups.as_slice())
}

// What is printed of a client that was to play a turn: the turn with the whole digest, whatever its report carries.
fn played(
    alloc: Global,
    client: &Client<'_>,
    number: u8,
    did: &Did,
    digest: Option<[u8; 16]>,
) -> Result<Events, OutOfMemory>
    requires sound { IsSound client.now ⟦<dyn System as System>⟧ }
    requires told { HasDigest (setup_in client.now) (life client.now) did.now digest }
    ensures events { IfOk result (λ events. events ≡ played_events (setup_in client.now) number (life client.now) (has_happened did.now)) }
    ensures none { has_happened did.now ≡ false → IsOk result }
{
    let Did::Done { .. } = did else {
        return Ok(Items::new(alloc));
    };
    let Some(seen) = shown(client, digest) else {
        return Ok(Items::new(alloc));
    };
    let turn = seen.0;
    let digest = seen.1;
    one(
        alloc,
        Event::Play {
            client: number,
            turn,
            digest,
        },
    )
}

// A client plays its next turn, and its report goes up.
fn play(
    alloc: Global,
    client: &mut Client<'_>,
    exchange: &mut Exchange,
    digests: &mut Digests,
    number: u8,
) -> Result<Events, OutOfMemory>
    requires { MayAct ⟦<dyn System as System>⟧ number client.old exchange.old }
    ensures { Acts ⟦<dyn System as System>⟧ (step.Play number) (plays (setup_in client.old) (life client.old) ≡ None) result client.old exchange.old
        client.new exchange.new }
{
    let made = client.play_beside(digests)?;
    let Played { did, digest } = made;
    let events = played(alloc, client, number, &did, digest)?;
    let ups = ups_of(alloc, did);
    exchange.send(number, ups.as_slice())?;
    Ok(events)
}

// A client wishes to join, and its wish goes up.
fn join(
    alloc: Global,
    client: &mut Client<'_>,
    exchange: &mut Exchange,
    number: u8,
) -> Result<Events, OutOfMemory>
    requires { MayAct ⟦<dyn System as System>⟧ number client.old exchange.old }
    ensures { Acts ⟦<dyn System as System>⟧ (step.Join number) (joins (life client.old) ≡ None) result client.old exchange.old client.new exchange.new }
{
    let did = client.join()?;
    let ups = ups_of(alloc, did);
    tell(alloc, exchange, number, ups.as_slice())
}

// What is printed of a client whose entity's health was bent.
fn bent(alloc: Global, client: &Client<'_>, number: u8) -> Result<Events, OutOfMemory>
    requires sound { IsSound client.now ⟦<dyn System as System>⟧ }
    ensures { IfOk result (λ events. events ≡ shows (setup_in client.now) (event.Bend number) (life client.now)) }
{
    let Some(seen) = shown(client, client.digest()) else {
        return Ok(Items::new(alloc));
    };
    let turn = seen.0;
    let digest = seen.1;
    one(
        alloc,
        Event::Bend {
            client: number,
            turn,
            digest,
        },
    )
}

// The health of an entity is bent in a client, and the server hears nothing of it.
fn bend(
    alloc: Global,
    client: &mut Client<'_>,
    exchange: &Exchange,
    number: u8,
    entity: u32,
    health: Fixed,
) -> Result<Events, OutOfMemory>
    requires sound { IsSound client.old ⟦<dyn System as System>⟧ }
    ensures acts { Acts ⟦<dyn System as System>⟧ (step.Bend number entity health) (bends (setup_in client.old) entity health (life client.old) ≡ None)
        result client.old exchange.now client.new exchange.now }
    ensures sound { IsSound client.new ⟦<dyn System as System>⟧ }
{
    if !client.bend(entity, health) {
        return Ok(Items::new(alloc));
    }
    bent(alloc, client, number)
}

// Whether a client is neither on nor waits for a state.
fn is_off(client: &Client<'_>) -> bool
    requires { IsSound client.now ⟦<dyn System as System>⟧ }
    ensures { result ≡ is_off_of (life client.now) }
{
    !client.joining() && client.turn().is_none()
}

// A client is cut off, and the server sees it gone.
fn cut(
    alloc: Global,
    client: &mut Client<'_>,
    exchange: &mut Exchange,
    number: u8,
) -> Result<Events, OutOfMemory>
    requires { MayAct ⟦<dyn System as System>⟧ number client.old exchange.old }
    ensures acts { Acts ⟦<dyn System as System>⟧ (step.Cut number) (is_off_of (life client.old) ≡ true) result client.old exchange.old client.new exchange.new }
    ensures sound { IsSound client.new ⟦<dyn System as System>⟧ }
{
    if is_off(client) {
        return Ok(Items::new(alloc));
    }
    client.cut();
    exchange.cut(number)?;
    one(alloc, Event::Cut { client: number })
}

/// By whom or at whom a step is.
pub fn client_of(step: &Step) -> u8
    ensures { result ≡ client_in step.now }
{
    match step {
        Step::Order { client, .. } => *client,
        Step::Up { client } => *client,
        Step::Down { client } => *client,
        Step::Play { client } => *client,
        Step::Join { client } => *client,
        Step::Cut { client } => *client,
        Step::Bend { client, .. } => *client,
    }
}

/// Makes a step of a client, and answers what is printed of it. The states that are played are digested beside those that are kept.
pub fn act(
    alloc: Global,
    client: &mut Client<'_>,
    exchange: &mut Exchange,
    digests: &mut Digests,
    step: &Step,
) -> Result<Events, OutOfMemory>
    requires may { MayHear ⟦<dyn System as System>⟧ (client_in step.now) client.old exchange.old }
    requires few { IsSmallStep step.now }
    ensures loads { Loads ⟦<dyn System as System>⟧ step.now result client.old exchange.old client.new exchange.new }
    ensures idle { (s : Session) → StandBeside (setup_in client.old) (client_in step.now) (life client.old) exchange.old s
        → events_by (setup_in client.old) s step.now ≡ [] → stepped_by (setup_in client.old) s step.now ≡ s → IsOk result }
{
    match step {
        Step::Order {
            client: number,
            command,
        } => order(alloc, client, exchange, *number, command),
        Step::Up { client: number } => exchange.rise(*number),
        Step::Down { client: number } => down(alloc, client, exchange, *number),
        Step::Play { client: number } => play(alloc, client, exchange, digests, *number),
        Step::Join { client: number } => join(alloc, client, exchange, *number),
        Step::Cut { client: number } => cut(alloc, client, exchange, *number),
        Step::Bend {
            client: number,
            entity,
            health,
        } => bend(alloc, client, exchange, *number, *entity, *health),
    }
}
