//! Ways that another program found on grounds drawn by hand, all ways on a few small grounds against a plain program, and winding ways on grounds that
//! change.

ghost use Rattle.std.specs.Prelude.{◌≡◌, ◌≤◌, IsTrue};
ghost use Rattle.sim_base.specs.Places.{is_inside};

mod plain;

use plain::{Plain, middle};
use sim_base::{Cell, Fixed, Global, OutOfMemory, Point};
use sim_grid::Grid;
use sim_path::{Searcher, way, way_with};
use sim_search::{Labels, labels_of};
use sim_system::Way;
use std::test::Fail;

// A way on a ground. Its first row is that of the least z; a closed cell is '#'. Points are in quarters of a metre.
#[derive(Drop)]
struct Case {
    rows: &'static [&'static str],
    start: (i32, i32),
    goal: (i32, i32),
    points: &'static [(i32, i32)],
}

// The ways of the other program.
static CASES: [Case; 10] = [
    // Of two ends that are as near and cost as much, the one with the smaller z.
    Case {
        rows: &["........", "....###.", "...####.", "....###.", "........"],
        start: (2, 10),
        goal: (22, 10),
        points: &[(6, 6), (10, 2), (14, 2), (18, 2), (22, 2)],
    },
    // One cell: the goal alone.
    Case {
        rows: &["....", "....", "....", "...."],
        start: (2, 2),
        goal: (1, 3),
        points: &[(1, 3)],
    },
    // A start that is closed and shut in.
    Case {
        rows: &["##..", "#...", "....", "...."],
        start: (2, 2),
        goal: (14, 14),
        points: &[],
    },
    // A wall from side to side.
    Case {
        rows: &["..#..", "..#..", "..#.."],
        start: (2, 6),
        goal: (18, 2),
        points: &[(6, 2)],
    },
    // A goal in a closed cell.
    Case {
        rows: &["....", "..#.", "...."],
        start: (2, 2),
        goal: (9, 7),
        points: &[(6, 6)],
    },
    // No diagonal step past one closed cell beside it.
    Case {
        rows: &[".#.", "...", "..."],
        start: (2, 2),
        goal: (10, 2),
        points: &[(2, 6), (6, 6), (10, 6), (10, 2)],
    },
    // A closed start is left, and the goal is reached at its own point.
    Case {
        rows: &["....", ".#..", "...."],
        start: (6, 6),
        goal: (14, 3),
        points: &[(10, 2), (14, 3)],
    },
    // A closed start between two regions.
    Case {
        rows: &["..#.."],
        start: (10, 2),
        goal: (18, 2),
        points: &[(14, 2), (18, 2)],
    },
    // One column.
    Case {
        rows: &[".", ".", ".", "."],
        start: (2, 2),
        goal: (2, 15),
        points: &[(2, 6), (2, 10), (2, 15)],
    },
    // Of ways that cost as much, by the first direction back from each cell.
    Case {
        rows: &["....", "....", "....", "...."],
        start: (14, 6),
        goal: (2, 2),
        points: &[(10, 2), (6, 2), (2, 2)],
    },
];

// A way of 64 points over an open ground, from the middle of its first cell: the ground's size, the goal, the last point,
// and whether the way is whole.
#[derive(Drop)]
struct Long {
    width: usize,
    depth: usize,
    goal: (i32, i32),
    last: (i32, i32),
    whole: bool,
}

static LONG: [Long; 3] = [
    Long {
        width: 65,
        depth: 1,
        goal: (257, 3),
        last: (257, 3),
        whole: true,
    },
    Long {
        width: 66,
        depth: 1,
        goal: (261, 3),
        last: (258, 2),
        whole: false,
    },
    Long {
        width: 256,
        depth: 256,
        goal: (1022, 1022),
        last: (258, 258),
        whole: false,
    },
];

// The grounds of the plain program.
static GROUNDS: [&[&str]; 5] = [
    &["....", ".#..", "..#.", "...."],
    &["..#.", ".#..", "...#", "#..."],
    &[".....", ".###.", ".#.#.", "..#.."],
    &["......", ".####.", "......"],
    &["...", "##.", "...", ".##", "..."],
];

// The labels of the ground "..#..".
static LABELS: [Option<u32>; 5] = [Some(0), Some(0), None, Some(3), Some(3)];

fn point(quarters: (i32, i32)) -> Point {
    Point {
        x: Fixed::from_raw(quarters.0.wrapping_mul(16384)),
        z: Fixed::from_raw(quarters.1.wrapping_mul(16384)),
    }
}

fn is_on(grid: &Grid, at: &Point) -> bool
    ensures { result ≡ is_inside grid.now.size at.now }
{
    let _at = *at;
    0 <= at.x.raw()
        && at.x.raw() < i32::from(grid.width()) * 65536
        && 0 <= at.z.raw()
        && at.z.raw() < i32::from(grid.depth()) * 65536
}

// A number of cells as the side of a ground, which has 1 to 256.
fn side(cells: usize) -> u16
    ensures least { 1 ≤ result }
    ensures most { result ≤ 256 }
{
    cells.max(1).min(256) as u16
}

// Opens and closes the cells of a row, and says whether they are just those of the ground.
fn draw(grid: &mut Grid, z: u16, row: &str) -> bool {
    let mut x = 0u16;
    for byte in row.as_bytes() {
        let cell = Cell { x, z };
        if !grid.has(cell) {
            return false;
        }
        grid.set(cell, *byte == b'.');
        x = x.wrapping_add(1);
    }
    x == grid.width()
}

// Draws each row, and says whether the ground has just these rows.
fn draw_all(grid: &mut Grid, rows: &[&str]) -> bool {
    let mut same = true;
    let mut z = 0u16;
    for row in rows {
        same = draw(grid, z, row) && same;
        z = z.wrapping_add(1);
    }
    same && z == grid.depth()
}

fn width_of(rows: &[&str]) -> usize {
    match rows.first() {
        None => 0,
        Some(row) => row.len(),
    }
}

// The ground of these rows, if they are of one length.
fn grid_of(alloc: Global, rows: &[&str]) -> Result<Option<Grid>, OutOfMemory> {
    let mut grid = Grid::new(alloc, side(width_of(rows)), side(rows.len()))?;
    let same = draw_all(&mut grid, rows);
    Ok(if same { Some(grid) } else { None })
}

// Whether the searches by labels find this way too.
fn is_found(
    alloc: Global,
    searcher: &mut Searcher,
    grid: &Grid,
    start: Point,
    goal: Point,
    found: &Way,
) -> Result<bool, OutOfMemory>
    requires start { IsTrue (is_inside grid.now.size start) }
    requires goal { IsTrue (is_inside grid.now.size goal) }
{
    let labels = labels_of(alloc, grid)?;
    let with = way_with(alloc, grid, &labels, start, goal)?;
    let kept = searcher.way(alloc, grid, &labels, start, goal)?;
    Ok(is_equal(found, &with) && is_equal(found, &kept))
}

fn is_equal(found: &Way, other: &Way) -> bool {
    found.whole == other.whole && found.points.as_slice() == other.points.as_slice()
}

// The way by the whole search, if both points are on the ground and the searches by labels find the same one.
fn way_on(
    alloc: Global,
    searcher: &mut Searcher,
    grid: &Grid,
    start: Point,
    goal: Point,
) -> Result<Option<Way>, OutOfMemory> {
    if !is_on(grid, &start) || !is_on(grid, &goal) {
        return Ok(None);
    }
    let found = way(alloc, grid, start, goal)?;
    let same = is_found(alloc, searcher, grid, start, goal, &found)?;
    Ok(if same { Some(found) } else { None })
}

// Whether there is a whole way, with just these points.
fn goes_by(found: &Option<Way>, points: &[(i32, i32)]) -> bool {
    match found {
        None => false,
        Some(way) => way.whole && are_points(way.points.as_slice(), points),
    }
}

fn are_points(found: &[Point], wanted: &[(i32, i32)]) -> bool {
    let mut same = found.len() == wanted.len();
    for at in 0..wanted.len() {
        same = same && at < found.len() && found[at] == point(wanted[at]);
    }
    same
}

// Whether all searches find the way with just these points.
fn is_way(
    alloc: Global,
    searcher: &mut Searcher,
    grid: &Grid,
    start: (i32, i32),
    goal: (i32, i32),
    points: &[(i32, i32)],
) -> Result<bool, OutOfMemory> {
    let found = way_on(alloc, searcher, grid, point(start), point(goal))?;
    Ok(goes_by(&found, points))
}

fn is_taken(alloc: Global, searcher: &mut Searcher, case: &Case) -> Result<bool, OutOfMemory> {
    match grid_of(alloc, case.rows)? {
        None => Ok(false),
        Some(grid) => is_way(alloc, searcher, &grid, case.start, case.goal, case.points),
    }
}

// The last case whose way is another, if there is one.
fn missed(alloc: Global, cases: &[Case]) -> Result<Option<usize>, OutOfMemory> {
    let mut searcher = Searcher::new();
    let mut missed = None;
    for (number, case) in cases.iter().enumerate() {
        if !is_taken(alloc, &mut searcher, case)? {
            missed = Some(number);
        }
    }
    Ok(missed)
}

#[test]
fn takes_the_way_of_the_other_program(rt: HostRuntime) -> Result<(), Fail> {
    assert_eq!(rt; missed(rt.alloc(), &CASES)?, None);
    Ok(())
}

// Whether there is a way of 64 points, with this one as the last, and is whole or not.
fn is_long(found: &Option<Way>, last: (i32, i32), whole: bool) -> bool {
    match found {
        None => false,
        Some(way) => way.whole == whole && ends_at(way.points.as_slice(), last),
    }
}

fn ends_at(points: &[Point], last: (i32, i32)) -> bool {
    points.len() == 64 && points[63] == point(last)
}

fn is_kept_on(
    alloc: Global,
    searcher: &mut Searcher,
    grid: &Grid,
    long: &Long,
) -> Result<bool, OutOfMemory> {
    let found = way_on(alloc, searcher, grid, point((2, 2)), point(long.goal))?;
    Ok(is_long(&found, long.last, long.whole))
}

fn is_kept(alloc: Global, searcher: &mut Searcher, long: &Long) -> Result<bool, OutOfMemory> {
    let grid = Grid::new(alloc, side(long.width), side(long.depth))?;
    is_kept_on(alloc, searcher, &grid, long)
}

// The last case whose way is another, if there is one.
fn not_kept(alloc: Global, cases: &[Long]) -> Result<Option<usize>, OutOfMemory> {
    let mut searcher = Searcher::new();
    let mut missed = None;
    for (number, long) in cases.iter().enumerate() {
        if !is_kept(alloc, &mut searcher, long)? {
            missed = Some(number);
        }
    }
    Ok(missed)
}

#[test]
fn keeps_64_points(rt: HostRuntime) -> Result<(), Fail> {
    assert_eq!(rt; not_kept(rt.alloc(), &LONG)?, None);
    Ok(())
}

// Whether all searches find the way of the plain program.
fn is_same(
    alloc: Global,
    searcher: &mut Searcher,
    grid: &Grid,
    plain: &Plain,
    from: (i32, i32),
    to: (i32, i32),
) -> Result<bool, OutOfMemory> {
    let wanted = plain.way(alloc, from, to)?;
    is_way(
        alloc,
        searcher,
        grid,
        middle(from),
        middle(to),
        wanted.as_slice(),
    )
}

// Whether that is so from this cell to each.
fn is_same_from(
    alloc: Global,
    searcher: &mut Searcher,
    grid: &Grid,
    plain: &Plain,
    from: (i32, i32),
) -> Result<bool, OutOfMemory> {
    let mut same = true;
    for z in 0..i32::from(grid.depth()) {
        for x in 0..i32::from(grid.width()) {
            same = is_same(alloc, searcher, grid, plain, from, (x, z))? && same;
        }
    }
    Ok(same)
}

// Whether that is so from each cell to each.
fn is_same_on(alloc: Global, searcher: &mut Searcher, grid: &Grid) -> Result<bool, OutOfMemory> {
    let plain = Plain::of(alloc, grid)?;
    let mut same = true;
    for z in 0..i32::from(grid.depth()) {
        for x in 0..i32::from(grid.width()) {
            same = is_same_from(alloc, searcher, grid, &plain, (x, z))? && same;
        }
    }
    Ok(same)
}

fn is_same_in(alloc: Global, searcher: &mut Searcher, rows: &[&str]) -> Result<bool, OutOfMemory> {
    match grid_of(alloc, rows)? {
        None => Ok(false),
        Some(grid) => is_same_on(alloc, searcher, &grid),
    }
}

// The last ground with another way, if there is one. One searcher goes on from ground to ground, of one size and of others.
fn differing(alloc: Global, grounds: &[&[&str]]) -> Result<Option<usize>, OutOfMemory> {
    let mut searcher = Searcher::new();
    let mut differing = None;
    for (number, rows) in grounds.iter().enumerate() {
        if !is_same_in(alloc, &mut searcher, rows)? {
            differing = Some(number);
        }
    }
    Ok(differing)
}

#[test]
fn takes_the_way_of_the_plain_program(rt: HostRuntime) -> Result<(), Fail> {
    assert_eq!(rt; differing(rt.alloc(), &GROUNDS)?, None);
    Ok(())
}

fn are_labels(labels: &Labels, wanted: &[Option<u32>]) -> bool {
    let mut same = true;
    let mut x = 0u16;
    for label in wanted {
        same = same && labels.of(Cell { x, z: 0 }) == *label;
        x = x.wrapping_add(1);
    }
    same
}

fn has_labels(alloc: Global, grid: &Grid, wanted: &[Option<u32>]) -> Result<bool, OutOfMemory> {
    let labels = labels_of(alloc, grid)?;
    Ok(are_labels(&labels, wanted))
}

fn is_labelled(alloc: Global, rows: &[&str], wanted: &[Option<u32>]) -> Result<bool, OutOfMemory> {
    match grid_of(alloc, rows)? {
        None => Ok(false),
        Some(grid) => has_labels(alloc, &grid, wanted),
    }
}

#[test]
fn labels_two_regions(rt: HostRuntime) -> Result<(), Fail> {
    assert!(rt; is_labelled(rt.alloc(), &["..#.."], &LABELS)?);
    Ok(())
}

/// From where to where ways are asked.
type Asked = [((i32, i32), (i32, i32)); 4];

// What is asked over and over on winding grounds.
static ASKED: Asked = [
    ((0, 0), (63, 62)),
    ((63, 62), (0, 0)),
    ((5, 30), (60, 2)),
    ((0, 62), (40, 10)),
];

// What is asked there after it, so that it is not remembered. The last two goals are closed.
static OTHERS: Asked = [
    ((1, 0), (62, 62)),
    ((62, 62), (1, 0)),
    ((6, 30), (60, 3)),
    ((1, 62), (40, 11)),
];

// A ground of walls with a gap at one end each, so that ways wind from side to side.
fn winding(alloc: Global, east: bool) -> Result<Grid, OutOfMemory> {
    let mut grid = Grid::new(alloc, 64, 64)?;
    for z in 0..64u16 {
        for x in 0..63u16 {
            let shift = if (z % 4 == 1) == east { 0 } else { 1 };
            let cell = Cell { x: x + shift, z };
            if z % 2 == 1 && grid.has(cell) {
                grid.set(cell, false);
            }
        }
    }
    Ok(grid)
}

// Whether all searches find the same ways.
fn agree_on(
    alloc: Global,
    searcher: &mut Searcher,
    grid: &Grid,
    asked: &Asked,
) -> Result<bool, OutOfMemory> {
    let mut same = true;
    for (from, to) in asked {
        let (from, to) = (point(middle(*from)), point(middle(*to)));
        let found = way_on(alloc, searcher, grid, from, to)?;
        same = same && found.is_some();
    }
    Ok(same)
}

// From four cells side by side to one goal.
fn toward(x: u8) -> Asked {
    let x = i32::from(x);
    [
        ((x, 0), (63, 62)),
        ((x + 1, 0), (63, 62)),
        ((x + 2, 0), (63, 62)),
        ((x + 3, 0), (63, 62)),
    ]
}

// Whether that is so of ways to one goal from many cells. The first of them open so many cells that distances to it are kept, off which
// the others are read.
fn agree_toward(alloc: Global, searcher: &mut Searcher, grid: &Grid) -> Result<bool, OutOfMemory> {
    let mut same = true;
    for x in [2u8, 6, 10, 14] {
        same = same && agree_on(alloc, searcher, grid, &toward(x))?;
    }
    Ok(same)
}

// Whether that is so when they are asked, after others, and again. The first ways take so many detours that landmarks are set for those
// that follow, and when they are asked again they are remembered.
fn agree_again(alloc: Global, searcher: &mut Searcher, grid: &Grid) -> Result<bool, OutOfMemory> {
    Ok(
        agree_on(alloc, searcher, grid, &ASKED)?
            && agree_on(alloc, searcher, grid, &OTHERS)?
            && agree_toward(alloc, searcher, grid)?
            && agree_on(alloc, searcher, grid, &ASKED)?,
    )
}

// Whether that is so on a winding ground, on the same with one cell more that is open, as it was before, and on another of its size.
fn agree_on_changes(alloc: Global) -> Result<bool, OutOfMemory> {
    let mut searcher = Searcher::new();
    let mut grid = winding(alloc, true)?;
    let mut same = true;
    for open in [false, true, false] {
        let gap = Cell { x: 32, z: 1 };
        if grid.has(gap) {
            grid.set(gap, open);
        }
        same = same && agree_again(alloc, &mut searcher, &grid)?;
    }
    let other = winding(alloc, false)?;
    Ok(same && agree_again(alloc, &mut searcher, &other)?)
}

#[test]
fn keeps_to_the_ground_as_it_is(rt: HostRuntime) -> Result<(), Fail> {
    assert_eq!(rt; agree_on_changes(rt.alloc())?, true);
    Ok(())
}
