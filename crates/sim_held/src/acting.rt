//! The steps of a client that is held: over its stage, its outbox and its match. What they leave after want of memory is cut off by
//! their caller.

ghost use Rattle.std.specs.Prelude.{[], All, IsOk, None, Ok, OnErr, OnOk, Option, ◌≡◌};
ghost use Rattle.sim_client.specs.{ClientWords.Answers, Lives.Act, Lives.Life, Lives.Off, Lives.On, Lives.joins, Lives.orders};
ghost use Rattle.sim_held.specs.Clients.{Goes, IsPlaced, IsStage, life_at, said_by};
ghost use Rattle.{sim_base.specs.Limits.HasFewIds, sim_base.specs.declared.setup.Setup.Setup as AnySetup, sim_wire.specs.Reading.IsSmallUp};

use crate::outbox::Outbox;
use crate::stage::{Stage, Went};
use sim_base::{Command, Global, OutOfMemory, Setup};
use sim_client::Did;
use sim_wire::Up;

/// What a client says goes behind all that waits.
pub fn say(outbox: &mut Outbox, did: Did) -> Result<Went, OutOfMemory>
    requires { All IsSmallUp (said_by did) }
    ensures goes { (act : Option Act) (old new : Life) → Answers act old (Ok did) new → Goes act old outbox.old result new outbox.new }
    ensures quiet { said_by did ≡ [] → IsOk result }
{
    match did {
        Did::Idle => Ok(Went::Idle),
        Did::Done { up } => {
            outbox.push_all(up.as_slice())?;
            Ok(Went::Done)
        }
    }
}

/// Wishes to join.
pub fn join(stage: &mut Stage, outbox: &mut Outbox) -> Result<Went, OutOfMemory>
    ensures goes { Goes (joins (life_at stage.old)) (life_at stage.old) outbox.old result (life_at stage.new) outbox.new }
    ensures idle { joins (life_at stage.old) ≡ None → result ≡ Ok Went.Idle }
    ensures sound { (setup : AnySetup) → IsStage setup stage.old → IsStage setup stage.new }
{
    let Stage::Off = stage else {
        return Ok(Went::Idle);
    };
    outbox.push(&Up::Join)?;
    *stage = Stage::Joining;
    Ok(Went::Done)
}

/// Gives a command, where it may.
pub fn give(
    alloc: Global,
    setup: &Setup,
    stage: &mut Stage,
    outbox: &mut Outbox,
    command: &Command,
) -> Result<Went, OutOfMemory>
    requires few { HasFewIds command.now }
    requires sound { IsPlaced setup.now stage.old }
    ensures goes { Goes (orders setup.now command.now (life_at stage.old)) (life_at stage.old) outbox.old result (life_at stage.new) outbox.new }
    ensures sound { OnOk result (IsStage setup.now stage.new) }
{
    let Stage::On { seat, .. } = stage else {
        return Ok(Went::Idle);
    };
    let did = sim_client::order(alloc, setup, seat, command)?;
    say(outbox, did)
}

/// Cuts a client off whose call was refused memory, and passes on what the call came to.
pub fn settle<T: Drop>(
    stage: &mut Stage,
    outbox: &mut Outbox,
    came: Result<T, OutOfMemory>,
) -> Result<T, OutOfMemory>
    ensures same { result ≡ came }
    ensures ok { OnOk came ((life_at stage.new ≡ life_at stage.old) × (outbox.new ≡ outbox.old)) }
    ensures err { OnErr came ((life_at stage.new ≡ Off) × (outbox.new ≡ [])) }
    ensures sound { (setup : AnySetup) → OnOk came (IsStage setup stage.old) → IsStage setup stage.new }
{
    if came.is_err() {
        *stage = Stage::Off;
        outbox.clear();
    }
    came
}
