//! The test of a state that still stands in its bytes: what `validity` asks of one in memory. The ids are seen to ascend
//! first, so that each target is then found by halves.

ghost use Rattle.std.specs.Prelude.{All, IsTrue, length, map, option_map, ◌++◌, ◌+◌, ◌<◌, ◌↔◌, ◌≡◌, ◌≤◌};
ghost use Rattle.sim_codec.specs.Common.{Both, id_of, IsInside, IsKnownRow, IsStrictlyIncreasing, IsValid, IsValidAim, IsValidMotion, IsValidRow, point_in};
ghost use Rattle.sim_codec.specs.{Common.row_of, Reading.AreGood};

use crate::stored::{Stored, StoredRows};
use crate::validity::{
    are_inside, are_stored_inside, has_valid_health, is_id_below, is_inside_setup, is_valid_clock,
};
use sim_base::{Aim, Arms, Fixed, Point, Setup, Template};
use sim_bytes::{MotionRow, Parts};

// Whether all points of a way lie on the ground of the match. It has no more than it may have.
fn has_inside_way(setup: &Setup, points: &[Point], stored: &[[u8; 8]]) -> bool
    requires { length points.now + length stored.now ≤ 64 }
    ensures { IsTrue result ↔ (All (IsInside setup.now) (points.now ++ map point_in stored.now) × (length (points.now ++ map point_in stored.now) ≤ 64)) }
{
    if !are_inside(setup, points) {
        return false;
    }
    are_stored_inside(setup, stored)
}

fn is_valid_motion(setup: &Setup, row: &MotionRow<'_>) -> bool
    ensures { IsTrue result ↔ IsValidMotion setup.now row.now.1 }
{
    if !row.going {
        return true;
    }
    is_inside_setup(setup, row.goal) && has_inside_way(setup, row.points, row.stored)
}

fn has_valid_motion(setup: &Setup, motion: &Option<MotionRow<'_>>, speed: Option<Fixed>) -> bool
    ensures { IsTrue result ↔ Both (option_map (λ row. row.1) motion.now) speed (λ motion speed. IsValidMotion setup.now motion) }
{
    match motion {
        None => speed.is_none(),
        Some(row) => match speed {
            None => false,
            Some(_) => is_valid_motion(setup, row),
        },
    }
}

fn health_of(parts: &Parts<'_>) -> Option<Fixed>
    ensures { result ≡ option_map (λ row. row.1) parts.now.health }
{
    match &parts.health {
        None => None,
        Some(row) => Some(row.health),
    }
}

// Rows that stand in bytes, of which the id of each is above that of the one before, so that each is found by halves.
#[derive(Drop)]
struct AscendingRows<'a, 'r> {
    all: &'a StoredRows<'r>,
    ghost ascending: { IsStrictlyIncreasing (map id_of all.now) },
}

impl AscendingRows<'_, '_> {
    fn is_valid_aim(&self, id: u32, aim: Aim, arms: Arms) -> bool
        ensures { IsTrue result ↔ IsValidAim self.now.all.now id aim arms }
    {
        if aim.cooldown > arms.repeat {
            return false;
        }
        aim.target == 0 || (aim.target != id && self.all.is_alive(aim.target))
    }

    fn has_valid_attack(&self, id: u32, attack: Option<Aim>, arms: Option<Arms>) -> bool
        ensures { IsTrue result ↔ Both attack arms (IsValidAim self.now.all.now id) }
    {
        match attack {
            None => arms.is_none(),
            Some(aim) => match arms {
                None => false,
                Some(arms) => self.is_valid_aim(id, aim, arms),
            },
        }
    }

    fn is_valid_row(&self, setup: &Setup, parts: &Parts<'_>, template: &Template) -> bool
        ensures { IsTrue result ↔ IsValidRow 1 setup.now self.now.all.now (row_of parts.now) template.now }
    {
        is_inside_setup(setup, parts.position.at)
            && parts.owner.owner <= setup.players
            && has_valid_health(health_of(parts), template.health)
            && has_valid_motion(setup, &parts.motion, template.speed)
            && self.has_valid_attack(parts.entity.id, parts.aim(), template.arms)
    }

    fn is_known_row(&self, setup: &Setup, parts: &Parts<'_>) -> bool
        ensures { IsTrue result ↔ IsKnownRow 1 setup.now self.now.all.now (row_of parts.now) }
    {
        match setup
            .templates
            .as_slice()
            .get(parts.entity.template as usize)
        {
            None => false,
            Some(template) => self.is_valid_row(setup, parts, template),
        }
    }

    // Whether the row is one of the match, with an id from 2 on that is below the next free one.
    fn is_good(&self, setup: &Setup, parts: &Parts<'_>, next: u32) -> bool
        ensures { IsTrue result ↔ (((2 ≤ (row_of parts.now).id) × ((row_of parts.now).id < next))
            × IsKnownRow 1 setup.now self.now.all.now (row_of parts.now)) }
    {
        is_id_below(parts.entity.id, next) && self.is_known_row(setup, parts)
    }

    fn are_good(&self, setup: &Setup, next: u32) -> bool
        ensures { IsTrue result ↔ AreGood setup.now self.now.all.now next self.now.all.now }
    {
        let mut rows = self.all.fork();
        'rows: while let Some(parts) = rows.next() {
            if !self.is_good(setup, &parts, next) {
                return false;
            }
        }
        true
    }
}

fn are_valid(setup: &Setup, all: &StoredRows<'_>, next: u32) -> bool
    ensures { IsTrue result ↔ (IsStrictlyIncreasing (map id_of all.now) × AreGood setup.now all.now next all.now) }
{
    all.are_ascending() && AscendingRows { all }.are_good(setup, next)
}

/// Whether the state is valid in the match. It takes no memory.
pub fn is_valid_stored(setup: &Setup, stored: &Stored<'_>) -> bool
    ensures { IsTrue result ↔ IsValid setup.now stored.now }
{
    is_valid_clock(setup, stored.turn, stored.next, stored.word)
        && are_valid(setup, &stored.rows, stored.next)
}
