//! What changes of an entity at a time: the mark that it leaves, and the mark that it takes.

ghost use Rattle.std.specs.Prelude.{[], false, IfSome, length, MatchOption, ℕ, ◌<◌, ◌≡◌, ◌≤◌, ◌⊎◌};
ghost use Rattle.sim_vision.specs.{Common.Cell as ACell, Watching.BeginsFrom, Watching.BeginsWith, Watching.IsSpanWhere, Watching.is_near};

use crate::disc::Disc;
use crate::span::Span;
use sim_trail::{Mark, Shift};

/// The mark that is left, and the one that is taken. Where there are both, they have one owner.
#[derive(Clone, Copy, Debug)]
pub struct Crossing {
    pub old: Option<Mark>,
    pub new: Option<Mark>,
}

impl Crossing {
    ghost use Rattle.std.specs.Prelude.{◌≡◌, ℕ, ◌≤◌, IfSome};
    ghost use Rattle.sim_vision.specs.Watching.{IsOwnedBy};

    /// The owner of the marks; 0 where there is none.
    pub fn owner(self) -> u8
        requires { IfSome self.old (λ old. IfSome self.new (λ new. old.owner ≡ new.owner)) }
        ensures owned { IsOwnedBy self result }
        ensures last { (most : ℕ) → IfSome self.old (λ old. old.owner ≤ most) → IfSome self.new (λ new. new.owner ≤ most) → result ≤ most }
    {
        match self.old.or(self.new) {
            Some(mark) => mark.owner,
            None => 0,
        }
    }
}

/// The first crossing of these shifts, and the shifts behind it. One that is gone and one of the same owner that is born next
/// go together, so that what both see need not be touched.
pub fn next_crossing(shifts: &[Shift]) -> Option<(Crossing, &[Shift])>
    ensures { MatchOption result (shifts.now ≡ []) (λ next. BeginsWith shifts.now next.0 next.1.now) }
{
    match shifts {
        [] => None,
        [Shift::Born { mark }, rest @ ..] => Some((
            Crossing {
                old: None,
                new: Some(*mark),
            },
            rest,
        )),
        [Shift::Gone { mark }, rest @ ..] => Some(crossing_from(*mark, rest)),
    }
}

// The crossing of a mark that is gone, and the shifts behind it.
fn crossing_from(old: Mark, rest: &[Shift]) -> (Crossing, &[Shift])
    ensures { BeginsFrom old rest.now result.0 result.1.now }
{
    match rest {
        [Shift::Born { mark }, more @ ..] if mark.owner == old.owner => (
            Crossing {
                old: Some(old),
                new: Some(*mark),
            },
            more,
        ),
        _ => (
            Crossing {
                old: Some(old),
                new: None,
            },
            rest,
        ),
    }
}

/// The cells of row z that a mark sees.
pub fn span_of(discs: &[Disc], mark: &Option<Mark>, z: u16, width: u16) -> Span
    requires narrow { width ≤ 256 }
    requires known { IfSome mark.now (λ mark. (mark.cell.x < width) × (mark.template < length discs.now)) }
    ensures { IsSpanWhere width z (is_near discs.now mark.now) result }
{
    match mark {
        None => Span::EMPTY,
        Some(mark) => discs[usize::from(mark.template)].span(mark.cell, z, width),
    }
}

/// The first row in which one of the marks sees a cell, and the first behind those. Both lie on the ground.
pub fn rows_of(discs: &[Disc], crossing: &Crossing, depth: u16) -> (u16, u16)
    requires old { IfSome crossing.now.old (λ mark. (mark.cell.z < 256) × (mark.template < length discs.now)) }
    requires new { IfSome crossing.now.new (λ mark. (mark.cell.z < 256) × (mark.template < length discs.now)) }
    ensures within { result.1 ≤ depth }
    ensures old { (c : ACell) → c.z < depth → (c.z < result.0) ⊎ (result.1 ≤ c.z) → is_near discs.now crossing.now.old c ≡ false }
    ensures new { (c : ACell) → c.z < depth → (c.z < result.0) ⊎ (result.1 ≤ c.z) → is_near discs.now crossing.now.new c ≡ false }
{
    let first = first_row(discs, &crossing.old, depth).min(first_row(discs, &crossing.new, depth));
    let end = end_row(discs, &crossing.old).max(end_row(discs, &crossing.new));
    (first, end.min(depth))
}

// The first row in which a mark sees a cell, or one behind all rows.
fn first_row(discs: &[Disc], mark: &Option<Mark>, depth: u16) -> u16
    requires known { IfSome mark.now (λ mark. mark.template < length discs.now) }
    ensures { (c : ACell) → c.z < depth → c.z < result → is_near discs.now mark.now c ≡ false }
{
    match mark {
        None => depth,
        Some(mark) => discs[usize::from(mark.template)].first_row(mark.cell),
    }
}

// The first row behind those in which a mark sees a cell.
fn end_row(discs: &[Disc], mark: &Option<Mark>) -> u16
    requires known { IfSome mark.now (λ mark. (mark.cell.z < 256) × (mark.template < length discs.now)) }
    ensures { (c : ACell) → result ≤ c.z → is_near discs.now mark.now c ≡ false }
{
    match mark {
        None => 0,
        Some(mark) => discs[usize::from(mark.template)].end_row(mark.cell),
    }
}
