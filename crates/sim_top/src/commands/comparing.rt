//! Two stored states of a match, which are compared.

ghost use Rattle.sim_top.specs.{Commands.{IsAnswerTo, shelved}, Common.{difference_of, IsValid}, Making.outcome_made, Outcome.compare_by, Words.to_compare};
ghost use Rattle.std.specs.Prelude.{IfOk, ◌≡◌};

use super::Answer;
use crate::inputs::{read_match, read_state};
use crate::{Status, Stop};
use sim_base::{Global, OutOfMemory, Setup, State};
use sim_diff::difference;
use sim_report::push_place;
use sim_store::Shelf;

/// Compares two states of a match that are stored in files. The second is read only where the first is one.
pub fn compare<'w, S: Shelf>(
    alloc: Global,
    shelf: &mut S,
    game: &'w str,
    left: &'w str,
    right: &'w str,
) -> Result<Answer<'w>, Stop<'w>>
    ensures { IsAnswerTo (to_compare game.now left.now right.now) result (shelved (S.held shelf.old) (S.counts shelf.old))
        (shelved (S.held shelf.new) (S.counts shelf.new)) }
{
    let setup = read_match(alloc, shelf, game)?;
    let first = read_state(alloc, shelf, &setup, left)?;
    let second = read_state(alloc, shelf, &setup, right)?;
    Ok(compared(alloc, &setup, &first, &second)?)
}

// The place at which two states differ, or that they are the same.
fn compared<'w>(
    alloc: Global,
    setup: &Setup,
    left: &State,
    right: &State,
) -> Result<Answer<'w>, OutOfMemory>
    requires left { IsValid setup.now left.now }
    requires right { IsValid setup.now right.now }
    ensures { IfOk result (λ answer. outcome_made answer ≡ compare_by (difference_of left.now right.now)) }
{
    let mut text = String::new(alloc);
    match difference(left, right) {
        None => {
            text.push_str("same\n")?;
            Ok(Answer {
                status: Status::Done,
                text,
                saved: None,
            })
        }
        Some(place) => {
            push_place(&place, &mut text)?;
            Ok(Answer {
                status: Status::Differs,
                text,
                saved: None,
            })
        }
    }
}
