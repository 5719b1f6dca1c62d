//! The estimate of a search that knows landmarks: the greater of what these tell and of the octile estimate.

use crate::aim::{Aim, Guide};
use crate::landmarks::Landmarks;
use crate::row::{Row, between};
use sim_base::Cell;

/// Where a search goes, landmarks of its ground, and the row of the goal.
#[derive(Clone, Copy)]
pub struct Ahead<'a> {
    pub aim: Aim,
    pub landmarks: &'a Landmarks,
    pub row: Option<Row>,
}

impl<'a> Ahead<'a> {
    ghost use Rattle.std.specs.Prelude.{◌≡◌};
    ghost use Rattle.sim_search.specs.Rows.{row_in};

    /// What landmarks tell on the way of this aim.
    pub fn of(aim: Aim, landmarks: &'a Landmarks) -> Ahead<'a>
        ensures aim { result.aim ≡ aim }
        ensures landmarks { result.landmarks.now ≡ landmarks.now }
        ensures row { result.row ≡ row_in landmarks.now aim.goal }
    {
        let row = landmarks.at(aim.goal);
        Ahead {
            aim,
            landmarks,
            row,
        }
    }
}

impl<'a> Guide for Ahead<'a> {
    ghost use Rattle.sim_search.specs.Rows.{estimate_by};

    ghost estimate_of = { estimate_by };

    #[inline(always)]
    fn estimate(self, cell: Cell) -> u32 {
        self.aim
            .estimate(cell)
            .max(between(&self.landmarks.at(cell), &self.row))
    }
}
