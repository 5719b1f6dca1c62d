//! What a way costs between near, middle and far cells and to a cell that lies in a building where the ground has buildings,
//! on each kind of ground: by the whole search, by labels in rooms of its own, and by a searcher that keeps its rooms.

ghost use Rattle.std.specs.Prelude.{◌<◌, ◌≤◌, IsTrue};
ghost use Rattle.sim_base.specs.Places.{is_inside};

use crate::ways::pairs::{centre, is_on};
use crate::ways::site::{GROUNDS, Ground, Site};
use sim_base::Point;
use sim_path::{Searcher, labels_of, way};
use std::io;
use std::time::Instant;

// The fastest of so many rounds counts.
const ROUNDS: usize = 30;

// How many calls a round has where one takes less than so many nanoseconds, as the clock itself takes some.
const CALLS: u32 = 16;

const SHORT: u128 = 50_000;

/// Which search is measured.
#[derive(Clone, Copy)]
enum Search {
    Whole,
    Labelled,
    Kept,
}

/// Prints the figures of grounds of 128 by 128 and of 256 by 256 cells.
pub fn measure(rt: &HostRuntime) -> io::Result<()> {
    for ground in GROUNDS {
        measure_ground(rt, 128, 127, ground)?;
        measure_ground(rt, 256, 255, ground)?;
    }
    Ok(())
}

// Prints the figures of one ground, whose last cell is (last, last - 1).
fn measure_ground(rt: &HostRuntime, size: u16, last: u8, ground: Ground) -> io::Result<()>
    requires least { 1 ≤ size }
    requires most { size ≤ 256 }
{
    let Ok(site) = Site::new(rt.alloc(), size, ground) else {
        return Ok(());
    };
    let labels = best_of_labels(rt, &site)?;
    println!(rt; "{size} by {size}, {ground:?}: labels {labels} ns")?;
    measure_way(
        rt,
        &site,
        "far",
        centre(1, 0),
        centre(last, last.saturating_sub(1)),
    )?;
    measure_way(rt, &site, "middle", centre(20, 20), centre(60, 44))?;
    measure_way(rt, &site, "near", centre(50, 40), centre(60, 44))?;
    measure_way(rt, &site, "to (71, 55)", centre(20, 20), centre(71, 55))?;
    measure_way(
        rt,
        &site,
        "near, to (71, 55)",
        centre(58, 52),
        centre(71, 55),
    )
}

// Prints what the searches take between two points.
fn measure_way(
    rt: &HostRuntime,
    site: &Site,
    name: &str,
    start: Point,
    goal: Point,
) -> io::Result<()> {
    let (start, goal) = (&start, &goal);
    let start_on = is_on(site.grid(), start);
    let goal_on = is_on(site.grid(), goal);
    if !start_on || !goal_on {
        return Ok(());
    }
    let whole = best_of_ways(rt, site, start, goal, Search::Whole)?;
    let labelled = best_of_ways(rt, site, start, goal, Search::Labelled)?;
    let kept = best_of_ways(rt, site, start, goal, Search::Kept)?;
    println!(rt; "    {name}: way {whole}, with labels {labelled}, in kept rooms {kept} ns")
}

// The nanoseconds of a call, by the fastest round.
fn best_of_ways(
    rt: &HostRuntime,
    site: &Site,
    start: &Point,
    goal: &Point,
    search: Search,
) -> io::Result<u128>
    requires start { IsTrue (is_inside site.now.size start.now) }
    requires goal { IsTrue (is_inside site.now.size goal.now) }
{
    let mut searcher = Searcher::new();
    let mut best = round(rt, &mut searcher, site, start, goal, search, 1)?;
    let calls = calls_in_round(best);
    for _ in 0..ROUNDS {
        let taken = round(rt, &mut searcher, site, start, goal, search, calls)?;
        best = best.min(taken / u128::from(calls));
    }
    Ok(best)
}

// How many calls a round has, of which one takes so many nanoseconds.
fn calls_in_round(taken: u128) -> u32
    ensures { 0 < result }
{
    if taken < SHORT { CALLS } else { 1 }
}

// The nanoseconds of so many calls.
fn round(
    rt: &HostRuntime,
    searcher: &mut Searcher,
    site: &Site,
    start: &Point,
    goal: &Point,
    search: Search,
    calls: u32,
) -> io::Result<u128>
    requires start { IsTrue (is_inside site.now.size start.now) }
    requires goal { IsTrue (is_inside site.now.size goal.now) }
{
    let begin = Instant::now(rt)?;
    for _ in 0..calls {
        find(rt, searcher, site, start, goal, search);
    }
    Ok(begin.elapsed(rt)?.as_nanos())
}

fn find(
    rt: &HostRuntime,
    searcher: &mut Searcher,
    site: &Site,
    start: &Point,
    goal: &Point,
    search: Search,
)
    requires start { IsTrue (is_inside site.now.size start.now) }
    requires goal { IsTrue (is_inside site.now.size goal.now) }
{
    match search {
        Search::Whole => {
            let _ = way(rt.alloc(), site.grid(), *start, *goal);
        }
        Search::Labelled => {
            let _ = site.way(rt.alloc(), *start, *goal);
        }
        Search::Kept => {
            let _ = site.way_by(rt.alloc(), searcher, *start, *goal);
        }
    }
}

// The nanoseconds that the labels of a ground take, at the fastest of some calls.
fn best_of_labels(rt: &HostRuntime, site: &Site) -> io::Result<u128> {
    let mut best = u128::MAX;
    for _ in 0..ROUNDS {
        let begin = Instant::now(rt)?;
        let _ = labels_of(rt.alloc(), site.grid());
        best = best.min(begin.elapsed(rt)?.as_nanos());
    }
    Ok(best)
}
