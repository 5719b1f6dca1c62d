//! The search, bucket by bucket: cells are taken by ascending keys, and each one with its least cost.

ghost use Rattle.{sim_grid.specs.Grids.is_open_at, sim_search.specs.{Common.{Cell, Field, field_of_grid, IsOnGround}, Estimates.IsGuide}};
ghost use Rattle.sim_search.specs.Queues.{AreCosts, Begins, cost_in, Drains, Expands, IsComeTo, IsSearched, Progress, Ready, size_of};
ghost use Rattle.std.specs.Prelude.{false, IfOk, IsTrue, OnOk, Some, true, ℕ, [], ◌+◌, ◌<◌, ◌^◌, ◌↔◌, ◌≡◌, ◌≤◌};

use crate::aim::Nowhere;
use crate::origin::Origin;
use crate::queue::{begun, emptied, is_empty, lower, swap_bucket, take, waiting};
use crate::steps::moves_by_trial;
use crate::{Costs, Guide, Search, step_beside, step_cost};
use sim_base::{Cell, Global, Items, OutOfMemory};
use sim_grid::{Grid, Spot};

// Reckons with the steps from a cell of this cost. Whether the start is open is looked at once for a bucket.
fn expand<A: Guide>(
    search: &mut Search,
    grid: &Grid,
    aim: A,
    start_open: bool,
    from: Cell,
    cost: u32,
) -> Result<(), OutOfMemory>
    requires size { size_of search.old.costs ≡ grid.now.size }
    requires start_open { start_open ≡ is_open_at grid.now search.old.start }
    requires from_on { IsOnGround grid.now.size from }
    requires label { cost_in search.old.costs from ≡ Some cost }
    requires small { cost < 2 ^ 31 }
    ensures { OnOk result (Expands (A.estimate_of aim) (field_of_grid grid.now) search.old search.new from cost) }
{
    let moves = if start_open {
        grid.steps(from)
    } else {
        moves_by_trial(grid, search.start, from)
    };
    let place = grid.place(from);
    let here = Spot { cell: from, place };
    for which in 0..8u8 {
        if let Some(to) = step_beside(grid, search.start, here, moves, which) {
            lower(search, aim, to, cost + step_cost(which))?;
        }
    }
    Ok(())
}

// Takes the cells of a bucket that wait by this key, and says whether there was one.
fn drain<A: Guide>(
    search: &mut Search,
    grid: &Grid,
    aim: A,
    bucket: &[Cell],
    now: u32,
) -> Result<bool, OutOfMemory>
    requires drains { Drains (A.estimate_of aim) (field_of_grid grid.now) search.old now bucket.now }
    requires small { now < 2 ^ 31 }
    ensures done { OnOk result (Drains (A.estimate_of aim) (field_of_grid grid.now) search.new now []) }
    ensures progress { IfOk result (λ any. Progress search.old search.new any) }
{
    let start_open = grid.open(search.start);
    let mut any = false;
    for cell in bucket {
        let cell = *cell;
        if let Some(cost) = waiting(search, cell) {
            expand(search, grid, aim, start_open, cell, cost)?;
            take(search, cell);
            any = true;
        }
    }
    Ok(any)
}

// Whether an end has a cost below this key.
fn is_come_to(costs: &Costs, ends: &[Cell], now: u32) -> bool
    ensures { IsTrue result ↔ IsComeTo (cost_in costs.now) ends.now now }
{
    for end in ends {
        if let Some(cost) = costs.at(*end) {
            if cost < now {
                return true;
            }
        }
    }
    false
}

// The next key with a cell in its bucket, of the few from this one on, and for how many keys none was taken by then.
fn passed(search: &Search, mut now: u32, mut idle: u32) -> (u32, u32)
    requires idle { idle < 32 }
    requires small { now < 2 ^ 31 }
    ensures ready { (estimate : Cell → ℕ) (field : Field) → Ready estimate field search.now now idle → Ready estimate field search.now result.0 result.1 }
    ensures gap { result.0 + idle ≡ now + result.1 }
    ensures least { idle ≤ result.1 }
    ensures most { result.1 < 32 }
{
    while idle < 30 {
        if !is_empty(search, now) {
            return (now, idle);
        }
        now += 2;
        idle += 2;
    }
    (now, idle)
}

/// A search from the start in the rooms of an earlier one, where they fit, before its first key, which is the estimate for
/// the start. The start counts as open.
pub fn started<A: Guide>(
    alloc: Global,
    grid: &Grid,
    rooms: Option<Search>,
    aim: A,
    start: Cell,
) -> Result<Stage, OutOfMemory>
    requires start { IsOnGround grid.now.size start }
    requires guide { IsGuide (field_of_grid grid.now) start (A.estimate_of aim) }
    ensures start { IfOk result (λ stage. stage.search.start ≡ start) }
    ensures key { IfOk result (λ stage. stage.key ≡ A.estimate_of aim start) }
    ensures begins { IfOk result (λ stage. Begins (A.estimate_of aim) grid.now.size start stage.search) }
    ensures ready { IfOk result (λ stage. Ready (A.estimate_of aim) (field_of_grid grid.now) stage.search stage.key 0) }
    ensures small { IfOk result (λ stage. stage.key < 2 ^ 24) }
{
    let origin = Origin {
        width: grid.width(),
        depth: grid.depth(),
        start,
    };
    let search = begun(alloc, rooms, origin, aim)?;
    Ok(Stage {
        search,
        key: aim.estimate(start),
        opened: 0,
    })
}

/// How far a search has come: all cells of lower keys than this one are taken. It counts the cells that waited in the buckets it has
/// gone through, by which it is told how dear the search was.
#[derive(Drop)]
pub struct Stage {
    pub search: Search,
    pub key: u32,
    pub opened: usize,
}

/// Goes on with a search until one of the ends has a cost below the key, or no cell waits. Of ends whose estimate is 0 it is
/// then told which costs the least, and how it is reached.
pub fn go_on<A: Guide>(
    alloc: Global,
    stage: Stage,
    grid: &Grid,
    aim: A,
    ends: &[Cell],
) -> Result<Stage, OutOfMemory>
    requires start_on { IsOnGround grid.now.size stage.search.start }
    requires ready { Ready (A.estimate_of aim) (field_of_grid grid.now) stage.search stage.key 0 }
    requires small { stage.key < 2 ^ 26 }
    ensures start { IfOk result (λ next. next.search.start ≡ stage.search.start) }
    ensures ready { IfOk result (λ next. Ready (A.estimate_of aim) (field_of_grid grid.now) next.search next.key 0) }
    ensures small { IfOk result (λ next. next.key ≤ stage.key + 2 ^ 22) }
    ensures costs { IfOk result (λ next. IsSearched (field_of_grid grid.now) stage.search.start (A.estimate_of aim) ends.now (cost_in next.search.costs)) }
{
    let Stage {
        mut search,
        key: mut now,
        mut opened,
    } = stage;
    let mut spare = Items::new(alloc);
    let mut idle = 0u32;
    while idle < 32 {
        let (next, none) = passed(&search, now, idle);
        now = next;
        idle = none;
        if is_come_to(&search.costs, ends, now) {
            return Ok(Stage {
                search,
                key: now,
                opened,
            });
        }
        let bucket = swap_bucket(&mut search, spare, now);
        opened = opened.saturating_add(bucket.as_slice().len());
        if drain(&mut search, grid, aim, bucket.as_slice(), now)? {
            idle = 0;
        } else {
            now += 2;
            idle += 2;
        }
        spare = emptied(bucket);
    }
    Ok(Stage {
        search,
        key: now,
        opened,
    })
}

/// The search that has come so far, whose rooms another one can be begun in.
pub fn search_of(stage: Stage) -> Search
    ensures { result ≡ stage.search }
{
    let Stage { search, .. } = stage;
    search
}

/// A search from the start that has come to all cells to which a walk leads, in the rooms of an earlier one, where they fit. The
/// start counts as open.
pub fn search_all(
    alloc: Global,
    grid: &Grid,
    rooms: Option<Search>,
    start: Cell,
) -> Result<Search, OutOfMemory>
    requires { IsOnGround grid.now.size start }
    ensures size { IfOk result (λ s. size_of s.costs ≡ grid.now.size) }
    ensures costs { IfOk result (λ s. AreCosts (field_of_grid grid.now) start (cost_in s.costs)) }
{
    let stage = started(alloc, grid, rooms, Nowhere {}, start)?;
    Ok(search_of(go_on(alloc, stage, grid, Nowhere {}, &[])?))
}

/// The least costs of walks from the start to all cells of the grid. The start counts as open.
pub fn least_costs(alloc: Global, grid: &Grid, start: Cell) -> Result<Costs, OutOfMemory>
    requires { IsOnGround grid.now.size start }
    ensures size { IfOk result (λ costs. size_of costs ≡ grid.now.size) }
    ensures costs { IfOk result (λ costs. AreCosts (field_of_grid grid.now) start (cost_in costs)) }
{
    let Search { costs, .. } = search_all(alloc, grid, None, start)?;
    Ok(costs)
}
