//! The test of a state: whether all holds of it that holds between two turns of its match. It takes no memory, and goes
//! over the rows once but for the look-ups of targets.

ghost use Rattle.std.specs.Prelude.{◌≡◌, ◌^◌, ◌<◌, ◌≤◌, ◌↔◌, map, pos, ◌≤ℤ◌, IsTrue, All};
ghost use Rattle.sim_codec.specs.Common.{Both, has_health, id_of, is_within, IsInside, IsKnownRow, IsStrictlyIncreasing, IsValid, IsValidAim, IsValidMotion};
ghost use Rattle.sim_codec.specs.Common.{IsValidRow, point_in};

use crate::look_up::place_of;
use sim_base::{
    Aim, Arms, Fixed, MAX_ROWS, MAX_WAYPOINTS, Motion, Point, Row, Setup, State, Template,
};
use sim_bytes::point_of;

fn is_within_cells(raw: i32, cells: u16) -> bool
    ensures { result ≡ is_within raw cells }
{
    0 <= raw && i64::from(raw) < i64::from(cells) * 65536
}

/// Whether a point lies on the ground of the match.
pub fn is_inside_setup(setup: &Setup, point: Point) -> bool
    ensures { IsTrue result ↔ IsInside setup.now point }
{
    is_within_cells(point.x.raw(), setup.land.width)
        && is_within_cells(point.z.raw(), setup.land.depth)
}

/// Whether all points lie on the ground of the match.
pub fn are_inside(setup: &Setup, points: &[Point]) -> bool
    ensures { IsTrue result ↔ All (IsInside setup.now) points.now }
{
    for point in points {
        if !is_inside_setup(setup, *point) {
            return false;
        }
    }
    true
}

/// Whether all points that stand in eight bytes each lie on the ground of the match.
pub fn are_stored_inside(setup: &Setup, stored: &[[u8; 8]]) -> bool
    ensures { IsTrue result ↔ All (λ bytes. IsInside setup.now (point_in bytes)) stored.now }
{
    for bytes in stored {
        if !is_inside_setup(setup, point_of(bytes)) {
            return false;
        }
    }
    true
}

fn is_valid_motion(setup: &Setup, motion: &Motion) -> bool
    ensures { IsTrue result ↔ IsValidMotion setup.now motion.now }
{
    match motion {
        Motion::Still => true,
        Motion::Going {
            goal,
            way,
            whole: _,
        } => {
            let points = way.as_slice();
            is_inside_setup(setup, *goal)
                && points.len() <= MAX_WAYPOINTS
                && are_inside(setup, points)
        }
    }
}

/// Whether a row has health where its template has, and then no more than it.
pub fn has_valid_health(health: Option<Fixed>, most: Option<Fixed>) -> bool
    ensures { IsTrue result ↔ Both health most (λ health most. (pos 1 ≤ℤ health) × (health ≤ℤ most)) }
{
    match health {
        None => most.is_none(),
        Some(health) => match most {
            None => false,
            Some(most) => 1 <= health.raw() && health.raw() <= most.raw(),
        },
    }
}

fn has_valid_motion(setup: &Setup, motion: &Option<Motion>, speed: Option<Fixed>) -> bool
    ensures { IsTrue result ↔ Both motion.now speed (λ motion speed. IsValidMotion setup.now motion) }
{
    match motion {
        None => speed.is_none(),
        Some(motion) => match speed {
            None => false,
            Some(_) => is_valid_motion(setup, motion),
        },
    }
}

// Rows of which the id of each is above that of the one before, so that each is found by halves.
#[derive(Drop)]
struct Ascending<'a> {
    rows: &'a [Row],
    ghost ascending: { IsStrictlyIncreasing (map id_of rows.now) },
}

impl Ascending<'_> {
    fn is_alive(&self, id: u32) -> bool
        ensures { result ≡ has_health self.now.rows.now id }
    {
        match place_of(self.rows, id) {
            None => false,
            Some(at) => self.rows[at].health.is_some(),
        }
    }

    fn is_valid_aim(&self, id: u32, aim: Aim, arms: Arms) -> bool
        ensures { IsTrue result ↔ IsValidAim self.now.rows.now id aim arms }
    {
        if aim.cooldown > arms.repeat {
            return false;
        }
        aim.target == 0 || (aim.target != id && self.is_alive(aim.target))
    }

    fn has_valid_attack(&self, id: u32, attack: Option<Aim>, arms: Option<Arms>) -> bool
        ensures { IsTrue result ↔ Both attack arms (IsValidAim self.now.rows.now id) }
    {
        match attack {
            None => arms.is_none(),
            Some(aim) => match arms {
                None => false,
                Some(arms) => self.is_valid_aim(id, aim, arms),
            },
        }
    }

    fn is_valid_row(&self, setup: &Setup, row: &Row, template: &Template) -> bool
        ensures { IsTrue result ↔ IsValidRow 1 setup.now self.now.rows.now row.now template.now }
    {
        is_inside_setup(setup, row.at)
            && row.owner <= setup.players
            && has_valid_health(row.health, template.health)
            && has_valid_motion(setup, &row.motion, template.speed)
            && self.has_valid_attack(row.id, row.attack, template.arms)
    }

    fn is_known_row(&self, setup: &Setup, row: &Row) -> bool
        ensures { IsTrue result ↔ IsKnownRow 1 setup.now self.now.rows.now row.now }
    {
        match setup.templates.as_slice().get(row.template as usize) {
            None => false,
            Some(template) => self.is_valid_row(setup, row, template),
        }
    }

    fn are_known(&self, setup: &Setup) -> bool
        ensures { IsTrue result ↔ All (IsKnownRow 1 setup.now self.now.rows.now) self.now.rows.now }
    {
        for row in self.rows {
            if !self.is_known_row(setup, row) {
                return false;
            }
        }
        true
    }
}

/// Whether the numbers before the rows are those of a valid state.
pub fn is_valid_clock(setup: &Setup, turn: u32, next: u32, word: u64) -> bool
    ensures { IsTrue result ↔ ((turn ≤ setup.now.turns) × ((2 ≤ next) × (next ≤ 0x20000000)) × (word < 2 ^ 48)) }
{
    turn <= setup.turns && 2 <= next && next <= 0x2000_0000 && word < 0x1_0000_0000_0000
}

fn are_ascending(rows: &[Row]) -> bool
    ensures { IsTrue result ↔ IsStrictlyIncreasing (map id_of rows.now) }
{
    for i in 1..rows.len() {
        if rows[i - 1].id >= rows[i].id {
            return false;
        }
    }
    true
}

/// Whether it is the id of an entity, and below the next free one.
pub fn is_id_below(id: u32, next: u32) -> bool
    ensures { IsTrue result ↔ ((2 ≤ id) × (id < next)) }
{
    2 <= id && id < next
}

fn are_ids_below(rows: &[Row], next: u32) -> bool
    ensures { IsTrue result ↔ All (λ row. (2 ≤ row.id) × (row.id < next)) rows.now }
{
    for row in rows {
        if !is_id_below(row.id, next) {
            return false;
        }
    }
    true
}

/// Whether the state is valid in the match. It takes no memory.
pub fn is_valid(setup: &Setup, state: &State) -> bool
    ensures { IsTrue result ↔ IsValid setup.now state.now }
{
    let rows = state.rows.as_slice();
    is_valid_clock(setup, state.turn, state.next, state.word)
        && rows.len() <= MAX_ROWS
        && are_ascending(rows)
        && are_ids_below(rows, state.next)
        && Ascending { rows }.are_known(setup)
}
