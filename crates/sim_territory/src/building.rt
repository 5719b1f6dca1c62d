//! A building as the table of influences takes it: whose it is, where it stands and how far its strength reaches. It stands
//! apart, so that no template is looked at for a cell.

ghost use Rattle.std.specs.Prelude.{◌≡◌, ◌+◌, ◌-◌, ◌*◌, ◌^◌, ◌<◌, ◌≤◌, min, max, MatchOption};
ghost use Rattle.sim_territory.specs.{Common.abs_diff, Common.IsSetup, Influence.base_of as base_of_mark, Spans.SpansNear};

use sim_base::{Base, Cell, Setup};
use sim_trail::Mark;

/// An obstruction of a player: its owner, its cell, and the octile distance at which its strength has come to nothing.
#[derive(Clone, Copy)]
pub struct Building {
    pub owner: u8,
    pub cell: Cell,
    pub reach: u32,
    ghost near: { reach ≤ 1280 },
}

impl Building {
    ghost use Rattle.sim_territory.specs.Buildings.{GivesNothing, IsBuildingOf};

    /// The building of an entity; none where it is Gaia's or no obstruction.
    pub fn of(setup: &Setup, mark: &Mark) -> Option<Building>
        requires { IsSetup setup.now }
        ensures { MatchOption result (GivesNothing setup.now mark.now) (IsBuildingOf setup.now mark.now) }
    {
        let base = base_of(setup, mark)?;
        (mark.owner != 0).then_some(Building {
            owner: mark.owner,
            cell: mark.cell,
            reach: 40 * (u32::from(base.width) + u32::from(base.depth)),
        })
    }

    /// Its strength at a cell that is so many columns along from its own, and so many rows across. The octile distance is taken
    /// as the greater of two sums, which needs one comparison.
    #[tactic(auto, using(crate::proofs::Moving::octile_is))]
    pub fn strength(&self, along: u32, across: u32) -> u32
        requires along { along < 2 ^ 16 }
        requires across { across < 2 ^ 16 }
        ensures { result ≡ self.now.reach - (14 * min along across + 10 * (max along across - min along across)) }
    {
        let farther = (10 * along + 4 * across).max(10 * across + 4 * along);
        self.reach.saturating_sub(farther)
    }

    /// The columns of a ground that have all cells within its reach, from the first to before the end.
    pub fn columns(&self, width: u16) -> (u16, u16)
        requires on { self.now.cell.x < width }
        requires narrow { width ≤ 256 }
        ensures order { result.0 ≤ result.1 }
        ensures most { result.1 ≤ width }
        ensures all { SpansNear self.now.cell.x self.now.reach width result }
    {
        span(self.cell.x, self.reach, width)
    }

    /// The columns of a ground that have all cells of a row within its reach, from the first to before the end. Of a row that is
    /// not its own they are fewer, but its own column is one of them.
    pub fn columns_of(&self, z: u16, width: u16) -> (u16, u16)
        requires on { self.now.cell.x < width }
        requires narrow { width ≤ 256 }
        ensures west { result.0 ≤ self.now.cell.x }
        ensures east { self.now.cell.x < result.1 }
        ensures most { result.1 ≤ width }
        ensures all { SpansNear self.now.cell.x (self.now.reach - 4 * abs_diff self.now.cell.z z) width result }
    {
        let across = u32::from(self.cell.z.abs_diff(z));
        span(self.cell.x, self.reach.saturating_sub(4 * across), width)
    }

    /// The rows of a ground that have all cells within its reach, from the first to before the end.
    pub fn rows(&self, depth: u16) -> (u16, u16)
        requires on { self.now.cell.z < depth }
        requires shallow { depth ≤ 256 }
        ensures order { result.0 ≤ result.1 }
        ensures most { result.1 ≤ depth }
        ensures all { SpansNear self.now.cell.z self.now.reach depth result }
    {
        span(self.cell.z, self.reach, depth)
    }
}

// The obstruction of an entity.
fn base_of(setup: &Setup, mark: &Mark) -> Option<Base>
    ensures { result ≡ base_of_mark setup.now mark.now }
{
    setup
        .templates
        .as_slice()
        .get(usize::from(mark.template))?
        .obstruct
}

// The numbers of so many that are nearer than a reach, at 10 a cell.
fn span(from: u16, reach: u32, cells: u16) -> (u16, u16)
    requires on { from < cells }
    requires few { cells ≤ 256 }
    requires near { reach ≤ 1280 }
    ensures first { result.0 ≤ from }
    ensures end { from < result.1 }
    ensures most { result.1 ≤ cells }
    ensures all { SpansNear from reach cells result }
{
    let radius = (reach.saturating_sub(1) / 10) as u16;
    (from.saturating_sub(radius), (from + radius + 1).min(cells))
}
