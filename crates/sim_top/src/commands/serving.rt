//! The server alone, over a schedule of arrivals.

ghost use Rattle.sim_top.specs.{Commands.IsAnswerTo, Commands.shelved, Words.to_serve};

use super::{Answer, shown};
use crate::inputs::read_schedule;
use crate::stop::Stop;
use sim_session::served_text;
use sim_store::Shelf;
use std::alloc::Global;

/// Runs the server over the schedule of a file.
pub fn serve<'w, S: Shelf>(
    alloc: Global,
    shelf: &mut S,
    name: &'w str,
) -> Result<Answer<'w>, Stop<'w>>
    ensures { IsAnswerTo (to_serve name.now) result (shelved (S.held shelf.old) (S.counts shelf.old)) (shelved (S.held shelf.new) (S.counts shelf.new)) }
{
    let schedule = read_schedule(alloc, shelf, name)?;
    shown(served_text(alloc, schedule))
}
