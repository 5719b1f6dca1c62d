//! The way from a point to another, by its points.

ghost use Rattle.{sim_base.specs.{Places.IsPlaced, Ways.{IsWay, way_of, waypoints}}, sim_grid.specs.Grids.field_of_grid, sim_path.specs.Answers.way_in};
ghost use Rattle.{sim_path.specs.Questions.{field_in, IsAsked, IsBetween, IsKnown}, sim_search.specs.{Estimates.IsNarrow, Floods.{AreLabels, label_in}}};
ghost use Rattle.std.specs.Prelude.{All, IfOk, reverse, true, [], ◌∷◌, ◌≡◌};

use crate::atlas::Atlas;
use crate::end::{best_of, end_of};
use crate::floor::Descent;
use crate::front::Front;
use crate::live::live_to;
use crate::marks::Marks;
use crate::milestone::milestone;
use crate::nearest::{is_reached, nearest, shore_of};
use crate::question::Question;
use crate::remembered::Remembered;
use crate::slope::Slope;
use crate::straight::Straight;
use crate::tight::tight_to;
use crate::trail::trail_from;
use crate::trip::{Trip, trip_of};
use crate::unmarked::blank_marks;
use sim_base::{Cell, Global, Items, OutOfMemory, Point, Points, cell_of, centre_of};
use sim_grid::{Grid, octile};
use sim_search::{
    Ahead, Aim, Distances, Guide, Labels, Search, Stage, Toward, go_on, least_costs, search_of,
    started,
};
use sim_system::Way;

// The way that has the goal alone.
fn way_within(alloc: Global, goal: &Point) -> Result<Way, OutOfMemory>
    ensures { IfOk result (λ way. way_in way ≡ record { points = goal.now ∷ []; whole = true }) }
{
    let mut points = Items::new(alloc);
    points.push(*goal)?;
    Ok(Way {
        points,
        whole: true,
    })
}

// Turns a trail round, so that it goes from the start on.
fn turn(trail: &mut Vec<Cell>)
    ensures { trail.new.items ≡ reverse trail.old.items }
{
    trail.as_mut_slice().reverse();
}

// The way through these cells: by the middle of each, but by the goal itself in its cell.
fn way_through(alloc: Global, trip: Trip<'_>, goal: &Point) -> Result<Way, OutOfMemory>
    requires cells { All IsNarrow trip.cells.now }
    requires goal { IsPlaced goal.now }
    ensures { IfOk result (λ way. way_in way ≡ record { points = waypoints goal.now trip.entry.cells.now; whole = trip.entry.whole }) }
{
    let to = cell_of(*goal);
    let mut points = Vec::with_capacity(alloc, trip.cells.len())?;
    for cell in trip.cells {
        let cell = *cell;
        let point = if cell == to { *goal } else { centre_of(cell) };
        points.push(point)?;
    }
    Ok(Way {
        points: Points::from_items(points),
        whole: trip.whole,
    })
}

// The way by its first cells.
fn way_by(
    alloc: Global,
    question: &Question<'_>,
    trip: Trip<'_>,
    start: &Point,
    goal: &Point,
) -> Result<Way, OutOfMemory>
    requires between { IsBetween question.now start.now goal.now }
    requires first { IsKnown question.now trip.cells.now trip.whole }
    ensures { IfOk result (λ way. way_in way ≡ way_of (field_in question.now) start.now goal.now) }
{
    way_through(alloc, trip, goal)
}

/// The first 64 points of the shortest way over the open cells of the grid, and whether these are all of it. Within one cell
/// that is the goal alone. The start counts as open. Where the goal can't be reached, the way leads to the reached cell that
/// is nearest to it by the octile distance.
pub fn way(alloc: Global, grid: &Grid, start: Point, goal: Point) -> Result<Way, OutOfMemory>
    requires asked { IsAsked grid.now start goal }
    ensures is_way { IfOk result (λ way. IsWay (field_of_grid grid.now) start goal (way_in way)) }
    ensures way_of { IfOk result (λ way. way_in way ≡ way_of (field_of_grid grid.now) start goal) }
{
    let from = grid.cell_of(start);
    let to = grid.cell_of(goal);
    if from == to {
        return way_within(alloc, &goal);
    }
    let costs = least_costs(alloc, grid, from)?;
    let end = end_of(&costs, from, to);
    let question = Question {
        grid,
        start: from,
        goal: to,
        near: 0,
        ends: &[to],
    };
    let mut trail = Vec::new(alloc);
    trail_from(&question, &costs, &mut trail, end)?;
    turn(&mut trail);
    way_by(alloc, &question, trip_of(trail.as_slice()), &start, &goal)
}

// From which detour on a search counts, which is how much more its way costs than the straight one: landmarks spare little where ways
// are nearly straight.
const FAR_ABOUT: u32 = 1_000;

// After which detours of all searches landmarks are set, which floods the ground nine times.
const MANY: u32 = 60_000;

// How dear a search was: how much more its way costs than its estimate told at first, and how many cells it opened.
#[derive(Clone, Copy)]
struct Pains {
    detour: u32,
    opened: usize,
}

/// The rooms of searches, which are kept from one to the next, what is known of the ground where ways are winding, and the ways that
/// took a search. What they hold changes no answer.
#[derive(Drop)]
pub struct Searcher {
    rooms: Option<Search>,
    marks: Option<Marks>,
    trail: Option<Vec<Cell>>,
    atlas: Option<Atlas>,
    detours: u32,
    ways: Option<Remembered>,
}

impl Searcher {
    ghost use Rattle.{sim_base.specs.{declared.place.Cell.Cell, Places.octile, Ways.{IsWay, way_of}}, sim_grid.specs.Grids.field_of_grid};
    ghost use Rattle.sim_path.specs.{Answers.way_in, Atlases.ground_in, Questions.{field_in, HasItsEnds, IsAsked, IsBetween, IsItsTrail, IsKnown, IsToTheGoal}};
    ghost use Rattle.{sim_path.specs.Questions.MayGoBack, sim_search.specs.{Floods.{AreLabels, label_in}, Queues.Ready}};
    ghost use Rattle.std.specs.Prelude.{IfOk, IfSome, OnOk, true, ◌<◌, ◌^◌, ◌≡◌};

    /// A searcher that has no rooms yet.
    pub fn new() -> Searcher {
        Searcher {
            rooms: None,
            marks: None,
            trail: None,
            atlas: None,
            detours: 0,
            ways: None,
        }
    }

    /// The same way as that of `way`, found by a search that goes to the reached cells nearest to the goal, which the
    /// labels tell, or remembered.
    pub fn way(
        &mut self,
        alloc: Global,
        grid: &Grid,
        labels: &Labels,
        start: Point,
        goal: Point,
    ) -> Result<Way, OutOfMemory>
        requires labels { AreLabels (field_of_grid grid.now) (label_in labels.now) }
        requires asked { IsAsked grid.now start goal }
        ensures is_way { IfOk result (λ way. IsWay (field_of_grid grid.now) start goal (way_in way)) }
        ensures way_of { IfOk result (λ way. way_in way ≡ way_of (field_of_grid grid.now) start goal) }
    {
        let from = grid.cell_of(start);
        let to = grid.cell_of(goal);
        if from == to {
            return way_within(alloc, &goal);
        }
        let question = Question {
            grid,
            start: from,
            goal: to,
            near: 0,
            ends: &[to],
        };
        if let Some(trip) = self.trip(&question) {
            return way_by(alloc, &question, trip, &start, &goal);
        }
        let shore = shore_of(grid, labels, from);
        if is_reached(&shore, to) {
            return self.way_to(alloc, &question, &start, &goal);
        }
        let ends = nearest(alloc, &shore, to)?;
        let question = Question {
            grid,
            start: from,
            goal: to,
            near: ends.near,
            ends: ends.cells.as_slice(),
        };
        self.way_to(alloc, &question, &start, &goal)
    }

    // The way, if it is remembered.
    fn trip(&self, question: &Question<'_>) -> Option<Trip<'_>>
        ensures { IfSome result (λ trip. IsKnown question.now trip.cells.now trip.whole) }
    {
        match &self.ways {
            Some(ways) => ways.trip(question),
            None => None,
        }
    }

    // Remembers the way. It is only kept, so want of memory is no refusal.
    fn remember(&mut self, alloc: Global, question: &Question<'_>, trip: Trip<'_>)
        requires { IsKnown question.now trip.cells.now trip.whole }
    {
        if let Ok(mut ways) = Remembered::of(alloc, self.ways.take(), question.grid) {
            let _ = ways.keep(question.start, question.goal, trip);
            self.ways = Some(ways);
        }
    }

    // The way to the best of the ends, with no search where it is straight. It is remembered where it took a search, or the ends did.
    fn way_to(
        &mut self,
        alloc: Global,
        question: &Question<'_>,
        start: &Point,
        goal: &Point,
    ) -> Result<Way, OutOfMemory>
        requires between { IsBetween question.now start.now goal.now }
        requires ends { HasItsEnds question.now }
        ensures { IfOk result (λ way. way_in way ≡ way_of (field_in question.now) start.now goal.now) }
    {
        let mut trail = room_of(alloc, self.trail.take());
        let straight = self.may_be_straight(question)
            && self.go_back(alloc, question, Straight {}, &mut trail)?;
        if !straight {
            self.search(alloc, question, &mut trail)?;
        }
        turn(&mut trail);
        let trip = trip_of(trail.as_slice());
        if !straight || question.near != 0 {
            self.remember(alloc, question, trip);
        }
        let way = way_by(alloc, question, trip, start, goal);
        self.trail = Some(trail);
        way
    }

    // Whether a way may be straight: distances that are kept may tell that it is longer. This only spares a try.
    fn may_be_straight(&self, question: &Question<'_>) -> bool {
        let (from, to) = (question.start, question.goal);
        let Some(atlas) = &self.atlas else {
            return true;
        };
        match atlas.distances_to(to) {
            Some(distances) => {
                let cost = Toward { distances }.estimate(from);
                cost == 0 || cost == octile(from, to)
            }
            None => true,
        }
    }

    // Whether a way to one of the ends costs as little as it is known that it must. If so, the trail is made of its cells, back
    // from that end. False says nothing.
    fn go_back<F: Descent>(
        &mut self,
        alloc: Global,
        question: &Question<'_>,
        floor: F,
        trail: &mut Vec<Cell>,
    ) -> Result<bool, OutOfMemory>
        requires { MayGoBack F.holds question.now floor }
        ensures { IfOk result (λ found. found ≡ true → IsItsTrail question.now trail.new.items) }
    {
        let mut dead = blank_marks(alloc, self.marks.take(), question.grid)?;
        let found = tight_to(question, floor, &mut dead, trail);
        self.marks = Some(dead);
        found
    }

    // Counts the detour of a search, and answers whether there were many. If so, the count begins anew.
    fn are_winding(&mut self, detour: u32) -> bool {
        if detour < FAR_ABOUT {
            return false;
        }
        self.detours = self.detours.saturating_add(detour);
        let many = MANY < self.detours;
        if many {
            self.detours = 0;
        }
        many
    }

    // Makes the trail back from the best of the ends by a search, with what is kept of this ground, where something is. A search that was
    // dear may have more kept for the next. It is only kept, so want of memory is no refusal.
    fn search(
        &mut self,
        alloc: Global,
        question: &Question<'_>,
        trail: &mut Vec<Cell>,
    ) -> Result<(), OutOfMemory>
        requires ends { HasItsEnds question.now }
        ensures { OnOk result (IsItsTrail question.now trail.new.items) }
    {
        if question.near != 0 || !question.grid.open(question.start) {
            self.search_straight(alloc, question, trail)?;
            return Ok(());
        }
        let Ok(mut atlas) = Atlas::of(alloc, self.atlas.take(), question.grid) else {
            self.search_straight(alloc, question, trail)?;
            return Ok(());
        };
        let found = self.search_by(alloc, question, &atlas, trail);
        if let Ok(pains) = &found {
            atlas.note(alloc, question, &mut self.rooms, pains.opened);
            if atlas.landmarks.is_none() && self.are_winding(pains.detour) {
                atlas.set_landmarks(alloc, question);
            }
        }
        self.atlas = Some(atlas);
        found?;
        Ok(())
    }

    // The same by the best that is kept of this ground, to the goal itself. By distances to the goal the way is read off.
    fn search_by(
        &mut self,
        alloc: Global,
        question: &Question<'_>,
        atlas: &Atlas,
        trail: &mut Vec<Cell>,
    ) -> Result<Pains, OutOfMemory>
        requires to_goal { IsToTheGoal question.now }
        requires atlas { ground_in atlas.now.cells ≡ question.now.grid.now }
        ensures { OnOk result (IsItsTrail question.now trail.new.items) }
    {
        if let Some(distances) = atlas.distances_to(question.goal) {
            let slope = Slope::of(distances, question.start);
            if self.go_back(alloc, question, slope, trail)? {
                return Ok(no_pains());
            }
            let mut live = blank_marks(alloc, self.marks.take(), question.grid)?;
            let found = live_to(question, &slope, &mut live, trail);
            self.marks = Some(live);
            if found? {
                return Ok(no_pains());
            }
            return self.search_straight(alloc, question, trail);
        }
        let Some(landmarks) = &atlas.landmarks else {
            return self.search_straight(alloc, question, trail);
        };
        let aim = Aim {
            goal: question.goal,
            near: question.near,
        };
        let guide = Ahead::of(aim, landmarks);
        let stage = started(
            alloc,
            question.grid,
            self.rooms.take(),
            guide,
            question.start,
        )?;
        self.finish(alloc, question, stage, guide, trail)
    }

    // The same by the octile estimate, and how dear the search was. Where the goal is far and a milestone before it is come to, a
    // way back is tried before all cells are gone through that cost as little.
    fn search_straight(
        &mut self,
        alloc: Global,
        question: &Question<'_>,
        trail: &mut Vec<Cell>,
    ) -> Result<Pains, OutOfMemory>
        requires ends { HasItsEnds question.now }
        ensures { OnOk result (IsItsTrail question.now trail.new.items) }
    {
        let aim = Aim {
            goal: question.goal,
            near: question.near,
        };
        let stage = started(alloc, question.grid, self.rooms.take(), aim, question.start)?;
        let Some(milestone) = milestone(question) else {
            return self.finish(alloc, question, stage, aim, trail);
        };
        let stage = go_on(
            alloc,
            stage,
            question.grid,
            aim,
            &[milestone, question.goal],
        )?;
        let (costs, key) = (&stage.search.costs, stage.key);
        let front = Front { costs, aim, key };
        if self.go_back(alloc, question, front, trail)? {
            let pains = pains_of(&stage, aim, question.start);
            self.rooms = Some(search_of(stage));
            return Ok(pains);
        }
        self.finish(alloc, question, stage, aim, trail)
    }

    // Makes the trail back by all that a search can tell, and answers how dear it was.
    fn finish<A: Guide>(
        &mut self,
        alloc: Global,
        question: &Question<'_>,
        stage: Stage,
        guide: A,
        trail: &mut Vec<Cell>,
    ) -> Result<Pains, OutOfMemory>
        requires ends { HasItsEnds question.now }
        requires from { stage.search.start ≡ question.now.start }
        requires none_left { (c : Cell) → octile c question.now.goal ≡ question.now.near → A.estimate_of guide c ≡ 0 }
        requires ready { Ready (A.estimate_of guide) (field_in question.now) stage.search stage.key 0 }
        requires small { stage.key < 2 ^ 26 }
        ensures { OnOk result (IsItsTrail question.now trail.new.items) }
    {
        let stage = go_on(alloc, stage, question.grid, guide, question.ends)?;
        let pains = pains_of(&stage, guide, question.start);
        let costs = &stage.search.costs;
        let end = match best_of(costs, question.ends, question.goal) {
            Some(end) => end,
            None => end_of(costs, question.start, question.goal),
        };
        let found = trail_from(question, costs, trail, end);
        self.rooms = Some(search_of(stage));
        found?;
        Ok(pains)
    }
}

// How dear it was to do with no search.
fn no_pains() -> Pains {
    Pains {
        detour: 0,
        opened: 0,
    }
}

// How dear a search from a cell was that has come so far.
fn pains_of<A: Guide>(stage: &Stage, guide: A, from: Cell) -> Pains {
    Pains {
        detour: stage.key.saturating_sub(guide.estimate(from)),
        opened: stage.opened,
    }
}

// An earlier trail's room, or a new one that takes no memory yet.
fn room_of(alloc: Global, trail: Option<Vec<Cell>>) -> Vec<Cell> {
    match trail {
        Some(trail) => trail,
        None => Vec::new(alloc),
    }
}

/// The same way as that of `Searcher::way`, in rooms of its own.
pub fn way_with(
    alloc: Global,
    grid: &Grid,
    labels: &Labels,
    start: Point,
    goal: Point,
) -> Result<Way, OutOfMemory>
    requires labels { AreLabels (field_of_grid grid.now) (label_in labels.now) }
    requires asked { IsAsked grid.now start goal }
    ensures is_way { IfOk result (λ way. IsWay (field_of_grid grid.now) start goal (way_in way)) }
    ensures way_of { IfOk result (λ way. way_in way ≡ way_of (field_of_grid grid.now) start goal) }
{
    Searcher::new().way(alloc, grid, labels, start, goal)
}
