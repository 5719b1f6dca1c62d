//! The run with a handler for each kind of command and of deed, over any shelf and any sink. The program calls it with the real ones, and
//! the tests with those in memory.

ghost use Rattle.{sim_edge.specs.Run.Ran, sim_orders.specs.Orders.{Fulfils, IsGiven, kind_of}, sim_top.specs.{Reads.scene, Stops.AreFresh, Words.words_of}};
ghost use Rattle.std.specs.Prelude.{IfOk, OnErr, ◌≡◌};

use crate::deeds::{bartered, tributed};
use sim_base::{Changes, Global, OutOfMemory};
use sim_orders::{Handler, OrderTable, Planner, Task};
use sim_stock::{DeedFunction, DeedHandler, DeedTable};
use sim_store::{Shelf, Sink};
use sim_system::{Rig, System};
use sim_top::{Status, run};

/// The changes that the planner of the command's kind makes.
pub fn planned(alloc: Global, task: &Task<'_>) -> Result<Changes, OutOfMemory>
    requires { IsGiven (kind_of task.now.command.now) task.now }
    ensures { Fulfils task.now result }
{
    task.plan(alloc)
}

/// Runs the words with these cleared rigs. Each kind of command has a handler of its own, and all of them plan by one function; each
/// kind of deed has one too. Where there is no memory for the handlers, the run does not begin.
pub fn run_with<S: Shelf, K: Sink>(
    alloc: Global,
    words: &[String],
    shelf: &mut S,
    out: &mut K,
    rigs: Vec<Rig>,
) -> Result<Status, OutOfMemory>
    requires { AreFresh ⟦<dyn System as System>⟧ rigs.items }
    ensures ran { IfOk result (λ status. Ran (words_of words.now)
        (scene (S.held shelf.old) (K.told out.old) (S.counts shelf.old) (K.faults out.old))
        (scene (S.held shelf.new) (K.told out.new) (S.counts shelf.new) (K.faults out.new))
        status) }
    ensures unbegun { OnErr result ((shelf.new ≡ shelf.old) × (out.new ≡ out.old)) }
{
    let mut handlers = Vec::with_capacity(alloc, 7)?;
    for kind in 1..8u8 {
        let run: Planner = Box::new(alloc, planned)?;
        handlers.push(Handler { kind, run })?;
    }
    let orders = OrderTable::new(handlers);
    let tributes: DeedFunction = Box::new(alloc, tributed)?;
    let barters: DeedFunction = Box::new(alloc, bartered)?;
    let deeds = DeedTable::new(vec![in alloc;
        DeedHandler {
            kind: 1,
            run: tributes
        },
        DeedHandler {
            kind: 2,
            run: barters
        },
    ]?);
    let ended = run(alloc, words, shelf, out, rigs, &orders, &deeds);
    Ok(ended.status)
}
