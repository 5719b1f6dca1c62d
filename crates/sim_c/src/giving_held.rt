//! How what a call of something held came to is put where C wants it.

ghost use Rattle.std.specs.Prelude.{Ok, string_bytes, ◌≡◌};
ghost use Rattle.sim_c.specs.Gives.{GivesLook, GivesPlayed, GivesSheet, GivesStamp, looked, sheet, stamp, went_status};

use crate::giving::fill;
use crate::status::{DONE, IDLE, NO_MEMORY, NOT_ON};
use sim_base::OutOfMemory;
use sim_embed::{Stamp, Stored};
use sim_held::Went;

/// The status of a step; bytes that stand for nothing have this one.
pub fn give_went(answer: Result<Went, OutOfMemory>, refused: i32) -> i32
    ensures { result ≡ went_status refused answer }
{
    match answer {
        Ok(Went::Refused) => refused,
        Ok(Went::Idle) => IDLE,
        Ok(Went::Done) => DONE,
        Err(OutOfMemory) => NO_MEMORY,
    }
}

/// Gives how many turns were played, if any were.
pub fn give_played(answer: Result<u32, OutOfMemory>, played: &mut u32) -> i32
    ensures { GivesPlayed result played.old played.new answer }
{
    match answer {
        Ok(0) => IDLE,
        Ok(turns) => {
            *played = turns;
            DONE
        }
        Err(OutOfMemory) => NO_MEMORY,
    }
}

/// Gives items.
pub fn give_items<T: Copy>(
    answer: Result<Option<Vec<T>>, OutOfMemory>,
    room: &mut [T],
    written: &mut u64,
) -> i32
    ensures { GivesLook result room.old room.new written.old written.new (looked (λ items. items.items) answer) }
{
    match answer {
        Ok(None) => NOT_ON,
        Ok(Some(items)) => fill(&items, room, written),
        Err(OutOfMemory) => NO_MEMORY,
    }
}

/// Gives a text.
pub fn give_shown(
    answer: Result<Option<String>, OutOfMemory>,
    text: &mut [u8],
    written: &mut u64,
) -> i32
    ensures { GivesLook result text.old text.new written.old written.new (looked string_bytes answer) }
{
    match answer {
        Ok(None) => NOT_ON,
        Ok(Some(shown)) => fill(shown.as_bytes(), text, written),
        Err(OutOfMemory) => NO_MEMORY,
    }
}

/// Gives a state and its digest.
pub fn give_state(
    answer: Result<Option<Stored>, OutOfMemory>,
    state: &mut [u8],
    written: &mut u64,
    digest: &mut [u8; 16],
) -> i32
    ensures { GivesSheet result (sheet state.old written.old digest.old) (sheet state.new written.new digest.new) answer }
{
    match answer {
        Ok(None) => NOT_ON,
        Ok(Some(stored)) => {
            let status = fill(&stored.bytes, state, written);
            if status == DONE {
                *digest = stored.digest;
            }
            status
        }
        Err(OutOfMemory) => NO_MEMORY,
    }
}

/// Gives a digest and a turn.
pub fn give_held_stamp(answer: Option<Stamp>, digest: &mut [u8; 16], turn: &mut u32) -> i32
    ensures { GivesStamp result (stamp digest.old turn.old) (stamp digest.new turn.new) (Ok answer) }
{
    match answer {
        None => NOT_ON,
        Some(stamp) => {
            let found = stamp.digest;
            *digest = found;
            *turn = stamp.turn;
            DONE
        }
    }
}
