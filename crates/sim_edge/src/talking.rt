//! A talk with a planner for each kind of command, over any shelf and any talk, and the number that the process then ends with.

ghost use Rattle.std.specs.Prelude.{[], IfOk, IfSome, OnErr, ◌≡◌};
ghost use Rattle.sim_edge.specs.{Process.talk_number_of, Talked.IsTalk, Talked.OfRelay, Talked.ShelfCauses, Talked.TalkCauses, Talked.TalksOf, Words.talk_of};
ghost use Rattle.sim_top.specs.Stops.{AreFresh};

use crate::asking::Asked;
use crate::conversing::converse;
use crate::ending::Ending;
use crate::running::planned;
use sim_base::{Global, OutOfMemory};
use sim_orders::{Handler, OrderTable, Planner};
use sim_store::Shelf;
use sim_system::{Rig, System};
use sim_talk::Talk;

/// Talks with these cleared rigs. Where there is no memory for the handlers, the talk does not begin.
pub fn talk_with<S: Shelf, T: Talk>(
    alloc: Global,
    asked: Asked<'_>,
    shelf: &mut S,
    other: &mut T,
    rigs: Vec<Rig>,
) -> Result<Ending, OutOfMemory>
    requires fresh { AreFresh ⟦<dyn System as System>⟧ rigs.items }
    requires limits { IsTalk (talk_of asked) }
    ensures talked { IfOk result
        (λ ending. IfSome (S.held shelf.old) (λ files. TalksOf files (talk_of asked.entry) ending (T.history other.old) (T.history other.new))) }
    ensures relays { IfOk result (λ ending. OfRelay (talk_of asked.entry) ending (T.history other.old) (T.history other.new)) }
    ensures causes { IfOk result (λ ending. TalkCauses ending (T.history other.old) (T.history other.new)) }
    ensures shelf { IfOk result (λ ending. ShelfCauses (talk_of asked.entry) ending (S.counts shelf.old) (S.counts shelf.new)) }
    ensures settled { (T.history other.old).kept ≡ [] → (T.history other.new).kept ≡ [] }
    ensures unbegun { OnErr result ((shelf.new ≡ shelf.old) × (other.new ≡ other.old)) }
{
    let mut handlers = Vec::with_capacity(alloc, 7)?;
    for kind in 1..8u8 {
        let run: Planner = Box::new(alloc, planned)?;
        handlers.push(Handler { kind, run })?;
    }
    let orders = OrderTable::new(handlers);
    let talked = converse(alloc, asked, shelf, other, rigs, &orders);
    Ok(talked.ending)
}

/// The number that the process ends with after a talk. Where there was no memory to begin, it is that of a run without memory.
pub fn talk_number(ended: Result<Ending, OutOfMemory>) -> u8
    ensures { result ≡ talk_number_of ended }
{
    match ended {
        Ok(ending) => ending.number(),
        Err(OutOfMemory) => 9,
    }
}
