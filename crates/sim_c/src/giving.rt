//! How an answer is put where C wants it. After a refusal nothing is written but the fault, and where the room is too small nothing but
//! how much it takes.

ghost use Rattle.std.specs.Prelude.{length, string_bytes, ◌≡◌};
ghost use Rattle.sim_c.specs.Gives.{GivesItems, GivesPlace, GivesStored, GivesValue, mapped, outs, put_in, room_status, stamp};

use crate::Fault;
use crate::status::{DIFFERS, DONE, NO_ROOM, refuse};
use sim_diff::Place;
use sim_embed::{Entity, Facts, Refused, Stamp, Stored, part_number, put};

/// Puts items into the room, and says how many there are in any case.
pub fn fill<T: Copy>(items: &[T], room: &mut [T], written: &mut u64) -> i32
    ensures status { result ≡ room_status items.now room.old }
    ensures room { room.new ≡ put_in items.now room.old }
    ensures written { written.new ≡ length items.now }
{
    *written = items.len() as u64;
    if put(items, room) { DONE } else { NO_ROOM }
}

/// Gives the numbers of a match.
pub fn give_facts(answer: Result<Facts, Refused>, facts: &mut Facts, fault: &mut Fault) -> i32
    ensures { GivesValue result facts.old facts.new fault.old fault.new answer }
{
    match answer {
        Ok(found) => {
            *facts = found;
            DONE
        }
        Err(refused) => refuse(&refused, fault),
    }
}

/// Gives a state and its digest.
pub fn give_stored(
    answer: Result<Stored, Refused>,
    state: &mut [u8],
    written: &mut u64,
    digest: &mut [u8; 16],
    fault: &mut Fault,
) -> i32
    ensures { GivesStored result (outs state.old written.old digest.old fault.old) (outs state.new written.new digest.new fault.new) answer }
{
    match answer {
        Ok(stored) => {
            let status = fill(&stored.bytes, state, written);
            if status == DONE {
                *digest = stored.digest;
            }
            status
        }
        Err(refused) => refuse(&refused, fault),
    }
}

/// Gives a digest and a turn.
pub fn give_stamp(
    answer: Result<Stamp, Refused>,
    digest: &mut [u8; 16],
    turn: &mut u32,
    fault: &mut Fault,
) -> i32
    ensures { GivesValue result (stamp digest.old turn.old) (stamp digest.new turn.new) fault.old fault.new answer }
{
    match answer {
        Ok(stamp) => {
            let found = stamp.digest;
            *digest = found;
            *turn = stamp.turn;
            DONE
        }
        Err(refused) => refuse(&refused, fault),
    }
}

/// Gives the place of a difference, if there is one.
pub fn give_place(
    answer: Result<Option<Place>, Refused>,
    entity: &mut u32,
    part: &mut u32,
    fault: &mut Fault,
) -> i32
    ensures { GivesPlace result entity.old entity.new part.old part.new fault.old fault.new answer }
{
    match answer {
        Ok(None) => DONE,
        Ok(Some(place)) => {
            *entity = place.entity;
            *part = part_number(place.part);
            DIFFERS
        }
        Err(refused) => refuse(&refused, fault),
    }
}

/// Gives a text.
pub fn give_text(
    answer: Result<String, Refused>,
    text: &mut [u8],
    written: &mut u64,
    fault: &mut Fault,
) -> i32
    ensures { GivesItems result text.old text.new written.old written.new fault.old fault.new (mapped string_bytes answer) }
{
    match answer {
        Ok(shown) => fill(shown.as_bytes(), text, written),
        Err(refused) => refuse(&refused, fault),
    }
}

/// Gives entities.
pub fn give_entities(
    answer: Result<Vec<Entity>, Refused>,
    rows: &mut [Entity],
    written: &mut u64,
    fault: &mut Fault,
) -> i32
    ensures { GivesItems result rows.old rows.new written.old written.new fault.old fault.new (mapped (λ found. found.items) answer) }
{
    match answer {
        Ok(found) => fill(&found, rows, written),
        Err(refused) => refuse(&refused, fault),
    }
}
