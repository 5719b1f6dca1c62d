//! A handler that plans by a function of the test's own, with the same fact: the match comes to the same states, and where the
//! function gives up, the run ends with that. A table that calls the usual planners would go on.

ghost use Rattle.{sim_base.specs.declared.{change.Change.TheVariants.Owner, state.Row.Row as AnyRow}, sim_client.specs.StageWords.AreCleared};
ghost use Rattle.{sim_orders.specs.Orders.{Fulfils, IsGiven, kind_of}, sim_stock.specs.PaidTurns.{deed as deed_of, IsAsked}};
ghost use Rattle.sim_system.specs.{Meanings.HaveKinds, RigWords.systems_of};
ghost use Rattle.std.specs.{List.flat_map, Prelude.{All, IfOk, if◌then◌else◌, length, [], ◌==◌, ◌∷◌, ◌≡◌}};

use crate::tests::runs::{ended, play, printed};
use sim_base::{Change, Changes, Global, Items, OutOfMemory, Row};
use sim_census::Census;
use sim_ground::Ground;
use sim_orders::{Handler, OrderTable, Planner, Task};
use sim_range::Range;
use sim_stock::{Deed, DeedFunction, DeedHandler, DeedTable, Stocks, barter, tribute};
use sim_store::{MemShelf, MemSink};
use sim_system::{Rig, System};
use sim_top::{Status, run};
use sim_watch::Watch;
use std::test::Fail;
use test_runs::games::HUTS_LEFT;
use test_runs::{Printed, add_rig, planned, rig, shelf_of, words_of};

// The digests of that match, whose player resigns in turn 1.
const LINES: &str =
    "turn 0 bc011c526afb5bc4756cb8f53721e51c\nturn 1 3b505723b94edd38fa8f90828241b1da\n";

// Player 2 resigns.
const SECOND_RESIGNS: &str =
    r#"{"size":[16,16],"closed":[],"players":[[],[]],"cap":0,"delay":1,"turns":1,"seed":0,"templates":[],"entities":[],"commands":[[1,2,"resign"]]}"#;

// The player's rows become Gaia's.
fn left(alloc: Global, rows: &[Row], player: u8) -> Result<Changes, OutOfMemory>
    ensures { IfOk result (λ changes. changes ≡ flat_map (λ (row : AnyRow). if row.owner == player then Owner row.id 0 ∷ [] else []) rows.now) }
{
    let mut changes = Vec::new(alloc);
    for row in rows {
        if row.owner == player {
            changes.push(Change::Owner {
                id: row.id,
                owner: 0,
            })?;
        }
    }
    Ok(Items::from_items(changes))
}

// Plans as the usual planners do.
fn planned_as_usual(alloc: Global, task: &Task<'_>) -> Result<Changes, OutOfMemory>
    requires { IsGiven (kind_of task.now.command.now) task.now }
    ensures { Fulfils task.now result }
{
    planned(alloc, task)
}

// Plans a resignation by a body of its own. For player 2 it gives up, as its fact allows.
fn resigned(alloc: Global, task: &Task<'_>) -> Result<Changes, OutOfMemory>
    requires { IsGiven 7 task.now }
    ensures { Fulfils task.now result }
{
    if task.player == 2 {
        return Err(OutOfMemory);
    }
    left(alloc, task.state.rows.as_slice(), task.player)
}

// The stocks after a tribute.
fn tributed(stocks: &Stocks, player: u8, deed: &Deed) -> Stocks
    requires { IsAsked 1 stocks.now player deed.now }
    ensures { result ≡ deed_of stocks.now player deed.now }
{
    tribute(stocks, player, deed)
}

// The stocks after a barter.
fn bartered(stocks: &Stocks, player: u8, deed: &Deed) -> Stocks
    requires { IsAsked 2 stocks.now player deed.now }
    ensures { result ≡ deed_of stocks.now player deed.now }
{
    barter(stocks, player, deed)
}

// Runs the words with handlers of which the last plans by this function.
fn run_here(
    alloc: Global,
    words: &[String],
    shelf: &mut MemShelf,
    out: &mut MemSink,
    rigs: Vec<Rig>,
    deeds: &DeedTable,
) -> Result<Status, OutOfMemory>
    requires eight { length rigs.items ≡ 8 }
    requires kinds { All (λ r. HaveKinds (systems_of r ⟦<dyn System as System>⟧)) rigs.items }
    requires cleared { All (λ r. AreCleared (systems_of r ⟦<dyn System as System>⟧)) rigs.items }
{
    let walk: Planner = Box::new(alloc, planned_as_usual)?;
    let stop: Planner = Box::new(alloc, planned_as_usual)?;
    let attack: Planner = Box::new(alloc, planned_as_usual)?;
    let delete: Planner = Box::new(alloc, planned_as_usual)?;
    let place: Planner = Box::new(alloc, planned_as_usual)?;
    let train: Planner = Box::new(alloc, planned_as_usual)?;
    let resign: Planner = Box::new(alloc, resigned)?;
    let handlers = vec![in alloc;
        Handler { kind: 1, run: walk },
        Handler { kind: 2, run: stop },
        Handler {
            kind: 3,
            run: attack
        },
        Handler {
            kind: 4,
            run: delete
        },
        Handler {
            kind: 5,
            run: place
        },
        Handler {
            kind: 6,
            run: train
        },
        Handler {
            kind: 7,
            run: resign
        },
    ]?;
    let orders = OrderTable::new(handlers);
    let ended = run(alloc, words, shelf, out, rigs, &orders, deeds);
    Ok(ended.status)
}

// The same, with the usual handlers of deeds.
fn run_with_deeds(
    alloc: Global,
    words: &[String],
    shelf: &mut MemShelf,
    out: &mut MemSink,
    rigs: Vec<Rig>,
) -> Result<Status, OutOfMemory>
    requires eight { length rigs.items ≡ 8 }
    requires kinds { All (λ r. HaveKinds (systems_of r ⟦<dyn System as System>⟧)) rigs.items }
    requires cleared { All (λ r. AreCleared (systems_of r ⟦<dyn System as System>⟧)) rigs.items }
{
    let tributes: DeedFunction = Box::new(alloc, tributed)?;
    let barters: DeedFunction = Box::new(alloc, bartered)?;
    let deeds = DeedTable::new(vec![in alloc;
        DeedHandler {
            kind: 1,
            run: tributes
        },
        DeedHandler {
            kind: 2,
            run: barters
        },
    ]?);
    run_here(alloc, words, shelf, out, rigs, &deeds)
}

// Plays a match on these rigs.
fn played_on(alloc: Global, file: &str, rigs: Vec<Rig>) -> Result<Printed, OutOfMemory>
    requires eight { length rigs.items ≡ 8 }
    requires kinds { All (λ r. HaveKinds (systems_of r ⟦<dyn System as System>⟧)) rigs.items }
    requires cleared { All (λ r. AreCleared (systems_of r ⟦<dyn System as System>⟧)) rigs.items }
{
    let words = words_of(alloc, &["play", "m"])?;
    let mut shelf = shelf_of(alloc, &[("m", file.as_bytes())])?;
    let mut out = MemSink::new(alloc, 100)?;
    let status = run_with_deeds(alloc, &words, &mut shelf, &mut out, rigs)?;
    printed(alloc, status, &out)
}

// Plays a match with these handlers.
fn played(alloc: Global, file: &str) -> Result<Printed, OutOfMemory> {
    let mut rigs = Vec::with_capacity(alloc, 8)?;
    for _ in 0..8u8 {
        add_rig(&mut rigs, rig!(alloc))?;
    }
    played_on(alloc, file, rigs)
}

// Whether the match comes to these states, with these handlers and with the usual ones.
fn are_both(alloc: Global, file: &str, lines: &str) -> Result<bool, OutOfMemory> {
    let here = played(alloc, file)?;
    let usual = play(alloc, file)?;
    Ok(ended(&here, Status::Done, lines) && ended(&usual, Status::Done, lines))
}

#[test]
fn another_handler_gives_the_same_states(rt: HostRuntime) -> Result<(), Fail> {
    assert!(rt; are_both(rt.alloc(), HUTS_LEFT, LINES)?);
    Ok(())
}

// How the match ends with these handlers, where nothing is printed, and how with the usual ones.
fn ends(alloc: Global, file: &str) -> Result<Option<(u8, Status)>, OutOfMemory> {
    let here = played(alloc, file)?;
    let usual = play(alloc, file)?;
    Ok(if here.text.as_str().is_empty() {
        Some((here.status.number(), usual.status))
    } else {
        None
    })
}

#[test]
fn a_handler_that_gives_up_ends_the_run(rt: HostRuntime) -> Result<(), Fail> {
    assert_eq!(rt; ends(rt.alloc(), SECOND_RESIGNS)?, Some((9, Status::Done)));
    Ok(())
}
