//! A row of the ground, as a part of a list of counts and a list of flags, and what becomes of it where the span that a mark
//! sees there changes. Cells that are in both spans are not touched.

ghost use Rattle.std.specs.Prelude.{false, length, not, slice_index, slice_index_or, true, ℕ, ◌&&◌, ◌+◌, ◌<◌, ◌||◌, ◌≡◌, ◌≤◌};
ghost use Rattle.sim_vision.specs.Watching.{CanRaise, is_in_row, is_within, IsRowTurned, IsSpanOf, one_if};

use crate::span::Span;

/// Leaves the old span and takes the new one, in a row that begins at this place.
pub fn turn_row(counts: &mut [u16], flags: &mut [bool], start: usize, old: Span, new: Span)
    requires old { IsSpanOf start old (length counts.old) }
    requires new { IsSpanOf start new (length counts.old) }
    requires counted { (k : ℕ) → is_in_row start old k ≡ true → 0 < slice_index counts.old k }
    requires can { CanRaise (is_in_row start new) counts.old flags.old }
    requires seen { (k : ℕ) → is_in_row start old k ≡ true → slice_index_or flags.old k false ≡ true }
    ensures { IsRowTurned start old new counts.old counts.new flags.old flags.new }
{
    lower_outside(counts, start, old, new);
    raise_outside(counts, flags, start, new, old);
}

// Counts one less at each cell of a span that is not in the other.
fn lower_outside(counts: &mut [u16], start: usize, span: Span, other: Span)
    requires span { IsSpanOf start span (length counts.old) }
    requires other { other.from ≤ other.to }
    requires counted { (k : ℕ) → is_in_row start span k ≡ true → 0 < slice_index counts.old k }
    ensures { (k : ℕ) → slice_index counts.new k + one_if (is_in_row start span k && not (is_in_row start other k)) ≡ slice_index counts.old k }
{
    let west = span.to.min(other.from);
    let east = span.from.max(other.to);
    lower(
        counts,
        start + usize::from(span.from),
        start + usize::from(west),
    );
    lower(
        counts,
        start + usize::from(east),
        start + usize::from(span.to),
    );
}

// Counts one more at each cell of a span that is not in the other, and sets its flag.
fn raise_outside(counts: &mut [u16], flags: &mut [bool], start: usize, span: Span, other: Span)
    requires span { IsSpanOf start span (length counts.old) }
    requires other { other.from ≤ other.to }
    requires can { CanRaise (is_in_row start span) counts.old flags.old }
    ensures counts { (k : ℕ) → slice_index counts.new k ≡ slice_index counts.old k + one_if (is_in_row start span k && not (is_in_row start other k)) }
    ensures flags { (k : ℕ) → slice_index_or flags.new k false
        ≡ (slice_index_or flags.old k false || (is_in_row start span k && not (is_in_row start other k))) }
{
    let west = span.to.min(other.from);
    let east = span.from.max(other.to);
    raise(
        counts,
        flags,
        start + usize::from(span.from),
        start + usize::from(west),
    );
    raise(
        counts,
        flags,
        start + usize::from(east),
        start + usize::from(span.to),
    );
}

fn lower(counts: &mut [u16], from: usize, to: usize)
    requires within { to ≤ length counts.old }
    requires counted { (k : ℕ) → is_within from to k ≡ true → 0 < slice_index counts.old k }
    ensures { (k : ℕ) → slice_index counts.new k + one_if (is_within from to k) ≡ slice_index counts.old k }
{
    for at in from..to {
        counts[at] -= 1;
    }
}

fn raise(counts: &mut [u16], flags: &mut [bool], from: usize, to: usize)
    requires within { to ≤ length counts.old }
    requires can { CanRaise (is_within from to) counts.old flags.old }
    ensures counts { (k : ℕ) → slice_index counts.new k ≡ slice_index counts.old k + one_if (is_within from to k) }
    ensures flags { (k : ℕ) → slice_index_or flags.new k false ≡ (slice_index_or flags.old k false || is_within from to k) }
{
    for at in from..to {
        counts[at] += 1;
        flags[at] = true;
    }
}
