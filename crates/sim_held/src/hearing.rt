//! What a client that is held hears: over its stage, its outbox and its match.

ghost use Rattle.sim_base.specs.{declared.{setup.Setup.Setup as AnySetup, state.State.State as AnyState}, Limits.IsSetup};
ghost use Rattle.sim_client.specs.{ClientWords.{LoadsAt, LoadsFrom, may_load, NeedsNoMemory}, Lives.{hears, Joining, loads, refused}};
ghost use Rattle.sim_held.specs.Clients.{Goes, GoesSilently, IsOn, IsPlaced, IsStage, life_at};
ghost use Rattle.std.specs.Prelude.{false, IfOk, IsOk, None, Ok, OnOk, Option, ◌≡◌};

use crate::acting::say;
use crate::outbox::Outbox;
use crate::stage::{Stage, Went};
use sim_base::{Global, OutOfMemory, Setup};
use sim_client::{begin, heed};
use sim_codec::{StateFault, load};
use sim_wire::Down;

/// Hears what the server says.
pub fn hear(
    alloc: Global,
    setup: &Setup,
    stage: &mut Stage,
    outbox: &mut Outbox,
    down: Down,
) -> Result<Went, OutOfMemory>
    requires sound { IsPlaced setup.now stage.old }
    ensures goes { (loaded : Option AnyState) → LoadsFrom setup.now down loaded
        → Goes (hears setup.now loaded down (life_at stage.old)) (life_at stage.old) outbox.old result (life_at stage.new) outbox.new }
    ensures sure { NeedsNoMemory (life_at stage.old) down → IsOk result }
    ensures idle { may_load (life_at stage.old) down ≡ false → hears setup.now None down (life_at stage.old) ≡ None → IsOk result }
    ensures sound { OnOk result (IsStage setup.now stage.new) }
{
    match stage {
        Stage::Off => Ok(Went::Idle),
        Stage::Joining => hear_joining(alloc, setup, stage, down),
        Stage::On { .. } => hear_on(alloc, setup, stage, outbox, down),
    }
}

// One that is on hears a message.
fn hear_on(
    alloc: Global,
    setup: &Setup,
    stage: &mut Stage,
    outbox: &mut Outbox,
    down: Down,
) -> Result<Went, OutOfMemory>
    requires sound { IsPlaced setup.now stage.old }
    requires on { IsOn stage.old }
    ensures goes { (loaded : Option AnyState) → Goes (hears setup.now loaded down (life_at stage.old)) (life_at stage.old) outbox.old result
        (life_at stage.new) outbox.new }
    ensures sure { NeedsNoMemory (life_at stage.old) down → IsOk result }
    ensures idle { hears setup.now None down (life_at stage.old) ≡ None → IsOk result }
    ensures sound { OnOk result (IsStage setup.now stage.new) }
{
    let Stage::On { state, seat } = stage else {
        return Ok(Went::Idle);
    };
    let did = heed(alloc, setup, state, seat, down)?;
    say(outbox, did)
}

// One that waits for a state hears a message, and says nothing.
fn hear_joining(
    alloc: Global,
    setup: &Setup,
    stage: &mut Stage,
    down: Down,
) -> Result<Went, OutOfMemory>
    requires limits { IsSetup setup.now }
    requires joining { life_at stage.old ≡ Joining }
    ensures goes { (loaded : Option AnyState) → LoadsFrom setup.now down loaded → GoesSilently (hears setup.now loaded down Joining) Joining result
        (life_at stage.new) }
    ensures sure { NeedsNoMemory Joining down → IsOk result }
    ensures idle { may_load Joining down ≡ false → IsOk result }
    ensures sound { OnOk result (IsStage setup.now stage.new) }
{
    match down {
        Down::State { done, bytes } => hear_state(alloc, setup, stage, done, bytes.as_slice()),
        Down::Refused { code } => Ok(hear_refused(stage, code)),
        Down::Ask { .. } => Ok(Went::Idle),
        Down::Command { .. } => Ok(Went::Idle),
        Down::Release { .. } => Ok(Went::Idle),
        Down::Notice { .. } => Ok(Went::Idle),
    }
}

// One that waits for a state is given the bytes of one. What does not load has no effect.
fn hear_state(
    alloc: Global,
    setup: &Setup,
    stage: &mut Stage,
    done: u32,
    bytes: &[u8],
) -> Result<Went, OutOfMemory>
    requires limits { IsSetup setup.now }
    requires joining { life_at stage.old ≡ Joining }
    ensures goes { (loaded : Option AnyState) → LoadsAt setup.now bytes.now loaded → GoesSilently (loads done loaded) Joining result (life_at stage.new) }
    ensures sound { OnOk result (IsStage setup.now stage.new) }
{
    match load(alloc, setup, bytes) {
        Ok(state) => {
            let seat = begin(alloc, state.turn, done);
            *stage = Stage::On { state, seat };
            Ok(Went::Done)
        }
        Err(StateFault::OutOfMemory) => Err(OutOfMemory),
        Err(StateFault::NotState) => Ok(Went::Idle),
        Err(StateFault::OtherMatch) => Ok(Went::Idle),
        Err(StateFault::Grammar) => Ok(Went::Idle),
    }
}

// One that waits for a state hears a refusal, and is off if it is that of its wish to join.
fn hear_refused(stage: &mut Stage, code: u8) -> Went
    requires joining { life_at stage.old ≡ Joining }
    ensures goes { GoesSilently (refused code) Joining (Ok result) (life_at stage.new) }
    ensures sound { (setup : AnySetup) → IsStage setup stage.new }
{
    if code != 4 {
        return Went::Idle;
    }
    *stage = Stage::Off;
    Went::Done
}
