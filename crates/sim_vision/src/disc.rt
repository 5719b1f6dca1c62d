//! The cells that an entity sees: a disc about its cell. The width of each of its rows is reckoned once, for all entities of a
//! template.

ghost use Rattle.std.specs.Prelude.{false, IfOk, ℕ, ◌*◌, ◌+◌, ◌-◌, ◌<◌, ◌≡◌, ◌≤◌};
ghost use Rattle.sim_vision.specs.{Common.Cell as ACell, Common.IsRoot, Vision.is_in_disc, Watching.AreHalves, Watching.IsSpanWhere};

use crate::span::Span;
use sim_base::{Cell, Global, OutOfMemory, root};
use std::marker::Model;

/// The cells within a reach of one in the middle. Contracts see the reach, in cells.
#[derive(Debug, Drop)]
pub struct Disc {
    reach: u16,
    halves: Vec<u16>,
}

impl Model for Disc {
    ghost use Rattle.{sim_vision.specs.Watching.AreHalves, std.specs.Prelude.ℕ};

    ghost Value = { ℕ };

    ghost view = { λ disc. disc.reach };

    ghost invariant = { λ disc. AreHalves disc.reach disc.halves.items };
}

impl Disc {
    /// The disc of a reach.
    pub fn new(alloc: Global, reach: u16) -> Result<Disc, OutOfMemory>
        requires { reach ≤ 256 }
        ensures { IfOk result (λ disc. disc ≡ reach) }
    {
        Ok(Disc {
            reach,
            halves: halves_of(alloc, reach)?,
        })
    }

    /// The cells of row z of a ground of this width that lie in the disc about a cell of the ground.
    pub fn span(&self, middle: Cell, z: u16, width: u16) -> Span
        requires narrow { width ≤ 256 }
        requires east { middle.x < width }
        ensures { IsSpanWhere width z (is_in_disc self.now middle) result }
    {
        let away = middle.z.abs_diff(z);
        if away > self.reach {
            return Span::EMPTY;
        }
        let half = self.half(away);
        Span {
            from: middle.x.saturating_sub(half),
            to: (middle.x + half + 1).min(width),
        }
    }

    // How far the rows at this distance from the middle go to both sides.
    #[tactic(auto, using(crate::proofs::Discs::half_small))]
    fn half(&self, away: u16) -> u16
        requires { away ≤ self.now }
        ensures root { IsRoot (self.now * self.now - away * away) result }
        ensures small { result ≤ 256 }
    {
        self.halves[usize::from(away)]
    }

    /// The first row in which the disc about a cell has cells.
    pub fn first_row(&self, middle: Cell) -> u16
        ensures row { result ≡ middle.z - self.now }
        ensures before { (c : ACell) → c.z < result → is_in_disc self.now middle c ≡ false }
    {
        middle.z.saturating_sub(self.reach)
    }

    /// The first row behind those in which the disc about a cell has cells.
    pub fn end_row(&self, middle: Cell) -> u16
        requires { middle.z < 256 }
        ensures row { result ≡ middle.z + self.now + 1 }
        ensures behind { (c : ACell) → result ≤ c.z → is_in_disc self.now middle c ≡ false }
    {
        middle.z + self.reach + 1
    }
}

// The halves of the rows of a disc, by their distance from the middle.
fn halves_of(alloc: Global, reach: u16) -> Result<Vec<u16>, OutOfMemory>
    requires { reach ≤ 256 }
    ensures { IfOk result (λ halves. AreHalves reach halves.items) }
{
    let mut halves = Vec::new(alloc);
    for away in 0..reach + 1 {
        halves.push(half_at(reach, away))?;
    }
    Ok(halves)
}

// How far a row of a disc goes from the middle.
fn half_at(reach: u16, away: u16) -> u16
    requires small { reach ≤ 256 }
    requires away { away ≤ reach }
    ensures { IsRoot (reach * reach - away * away) result }
{
    root(squared(reach) - squared(away)) as u16
}

fn squared(n: u16) -> u64
    ensures { result ≡ n * n }
{
    u64::from(n) * u64::from(n)
}
