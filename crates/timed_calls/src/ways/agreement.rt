//! That the whole search, the search by labels and one searcher that is kept over all grounds find the same ways, by what
//! they answer: the first 64 points, and whether these are all.

use crate::ways::pairs::{Points, is_on};
use crate::ways::site::{GROUNDS, Site};
use sim_base::{Global, OutOfMemory, Point};
use sim_path::{Searcher, way};
use sim_system::Way;

// How many pairs of points are tried on each ground.
const PAIRS: usize = 40;

/// Whether all searches find the same ways between random points, the grounds in turn.
pub fn agree(alloc: Global) -> Result<bool, OutOfMemory> {
    let mut sites = Vec::new(alloc);
    for ground in GROUNDS {
        sites.push(Site::new(alloc, 256, ground)?)?;
    }
    let mut searcher = Searcher::new();
    let mut points = Points::new();
    let mut same = true;
    for _ in 0..PAIRS {
        for site in &sites {
            let start = points.draw();
            let goal = points.draw();
            same = same && is_same(alloc, &mut searcher, site, &start, &goal)?;
        }
    }
    Ok(same)
}

// Whether all searches find the same way between two points.
fn is_same(
    alloc: Global,
    searcher: &mut Searcher,
    site: &Site,
    start: &Point,
    goal: &Point,
) -> Result<bool, OutOfMemory> {
    let start_on = is_on(site.grid(), start);
    let goal_on = is_on(site.grid(), goal);
    if !start_on || !goal_on {
        return Ok(false);
    }
    let whole = way(alloc, site.grid(), *start, *goal)?;
    let own = site.way(alloc, *start, *goal)?;
    let kept = site.way_by(alloc, searcher, *start, *goal)?;
    Ok(is_equal(&whole, &own) && is_equal(&whole, &kept))
}

fn is_equal(a: &Way, b: &Way) -> bool {
    a.whole == b.whole && a.points.as_slice() == b.points.as_slice()
}
