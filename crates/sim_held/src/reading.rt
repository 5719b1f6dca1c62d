//! Bytes that a client is given: a command that its player gives, and a frame of the server.

ghost use Rattle.{serde_json.specs.View.view, sim_base.specs.{declared.state.State.State as AnyState, Limits.HasFewIds}};
ghost use Rattle.sim_client.specs.{ClientWords.{LoadsFrom, may_load, NeedsNoMemory}, Lives.{hears, orders, Told}};
ghost use Rattle.sim_held.specs.{Clients.{command_in, Goes, Heeds, IsPlaced, IsStage, life_at, Stays}, Hearing.{brings_state as brings_state_by, goes_by}};
ghost use Rattle.sim_wire.specs.{Memory.down_carries, Reading.IsDownFrame};
ghost use Rattle.std.specs.{Prelude.{false, IfOk, IfSome, IsErr, IsOk, None, Ok, OnOk, Option, option_map, true, ◌≡◌}, Str.is_utf8};

use crate::acting::give;
use crate::hearing::hear;
use crate::outbox::Outbox;
use crate::stage::{Stage, Went};
use sim_base::{Command, Global, OutOfMemory, Setup};
use sim_json::{list_of, value_of};
use sim_wire::{WireFault, unframe_down};

// The command that bytes spell, or None where they spell none.
fn command_of(alloc: Global, bytes: &[u8]) -> Result<Option<Command>, OutOfMemory>
    ensures command { IfOk result (λ found. found ≡ command_in bytes.now) }
    ensures few { IfOk result (λ found. IfSome found HasFewIds) }
    ensures no_text { is_utf8 bytes.now ≡ false → result ≡ Ok None }
{
    let Some(value) = value_of(alloc, bytes)? else {
        return Ok(None);
    };
    let Some(items) = list_of(&value) else {
        return Ok(None);
    };
    sim_json::command_of(alloc, items)
}

/// Gives the command that bytes spell, where it may.
pub fn order(
    alloc: Global,
    setup: &Setup,
    stage: &mut Stage,
    outbox: &mut Outbox,
    bytes: &[u8],
) -> Result<Went, OutOfMemory>
    requires sound { IsPlaced setup.now stage.old }
    ensures heeds { Heeds (option_map (λ given. orders setup.now given (life_at stage.old)) (command_in bytes.now)) (life_at stage.old) outbox.old result
        (life_at stage.new) outbox.new }
    ensures no_text { is_utf8 bytes.now ≡ false → result ≡ Ok Went.Refused }
    ensures sound { OnOk result (IsStage setup.now stage.new) }
{
    match command_of(alloc, bytes)? {
        Some(command) => give(alloc, setup, stage, outbox, &command),
        None => Ok(Went::Refused),
    }
}

/// Hears a frame of the server.
pub fn hear_frame(
    alloc: Global,
    setup: &Setup,
    stage: &mut Stage,
    outbox: &mut Outbox,
    bytes: &[u8],
) -> Result<Went, OutOfMemory>
    requires sound { IsPlaced setup.now stage.old }
    ensures frame { (down : Told) → IsDownFrame bytes.now down → (loaded : Option AnyState) → LoadsFrom setup.now down loaded
        → Goes (hears setup.now loaded down (life_at stage.old)) (life_at stage.old) outbox.old result (life_at stage.new) outbox.new }
    ensures other { ((down : Told) → IsDownFrame bytes.now down → ⊥) → (result ≡ Ok Went.Refused)
        × Stays (life_at stage.old) outbox.old (life_at stage.new) outbox.new }
    ensures sure { (down : Told) → IsDownFrame bytes.now down → NeedsNoMemory (life_at stage.old) down → IsOk result }
    ensures idle { (down : Told) → IsDownFrame bytes.now down → down_carries down ≡ false → may_load (life_at stage.old) down ≡ false
        → hears setup.now None down (life_at stage.old) ≡ None → IsOk result }
    ensures sound { OnOk result (IsStage setup.now stage.new) }
{
    match unframe_down(alloc, bytes) {
        Ok(down) => hear(alloc, setup, stage, outbox, down),
        Err(WireFault::OutOfMemory) => pass_by(stage, bytes),
        Err(WireFault::TooLong) => Ok(Went::Refused),
        Err(WireFault::NotFrame) => Ok(Went::Refused),
    }
}

// A frame that there is no memory to read: a state or a command. Where it changes nothing it need not be read.
fn pass_by(stage: &Stage, bytes: &[u8]) -> Result<Went, OutOfMemory>
    ensures passes { (down : Told) → IsDownFrame bytes.now down → goes_by (life_at stage.now) down ≡ true → result ≡ Ok Went.Idle }
    ensures refuses { (down : Told) → IsDownFrame bytes.now down → goes_by (life_at stage.now) down ≡ false → IsErr result }
{
    let passes = match stage {
        Stage::Off => true,
        Stage::Joining => !brings_state(bytes),
        Stage::On { .. } => brings_state(bytes),
    };
    if passes {
        Ok(Went::Idle)
    } else {
        Err(OutOfMemory)
    }
}

// Whether a frame brings the bytes of a state, which the tag behind its length says.
fn brings_state(frame: &[u8]) -> bool
    ensures { (down : Told) → IsDownFrame frame.now down → result ≡ brings_state_by down }
{
    match frame {
        [_, _, _, _, tag, ..] => *tag == 2,
        _ => false,
    }
}
