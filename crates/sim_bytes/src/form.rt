//! What the rows of every section have in common. Writers and readers are written once over this trait, so that a new
//! section is one more form and no change of theirs.

ghost use Rattle.{sim_base.specs.declared.state.Row.Row, sim_bytes.specs.{Reading.{Reader, Reads}, Rows.HasShortWay, Telling.Tells}};
ghost use Rattle.std.specs.Prelude.{IfSome, is_some, length, List, OnOk, Option, Some, ℕ, [], ◌++◌, ◌≡◌, ◌≤◌};

use crate::{ByteSink, Short, Take};
use sim_base::Row;

/// What stands in a section as one row, which may lend part of what it was made of.
pub trait RowForm<'a>: Sized + Drop {
    ghost TAG: { ℕ };

    /// A row of which each number fits its bytes.
    ghost is_row: { Self → Type 0 };

    /// Its bytes.
    ghost spelled: { Self → List ℕ };

    /// The row at the front of bytes, and what follows it.
    ghost row_at: { Reader Self };

    /// What a row of a state has in this section.
    ghost in_row: { Row → Option Self };

    /// The number of its section.
    fn tag() -> u8
        ensures { result ≡ TAG };

    /// What a row of a state has in this section.
    fn of(row: &'a Row) -> Option<Self>
        requires { HasShortWay row.now }
        ensures { result ≡ in_row row.now };

    /// Whether a row of a state has anything in this section.
    fn is_in(row: &'a Row) -> bool
        ensures { result ≡ is_some (in_row row.now) };

    /// Takes a row, and may take part of one that is cut short.
    fn take(from: &mut Take<'a>) -> Result<Self, Short>
        ensures { Reads row_at from.old result from.new };

    /// Tells a row's bytes.
    fn tell<K: ByteSink>(&self, out: &mut K) -> Result<(), K::Fault>
        ensures { OnOk result (Tells K.holds out.old out.new (spelled self.now)) };

    /// A row's bytes are read back as that row, whatever follows.
    ghost read_back: { (row : Self) (rest : List ℕ) → is_row row → row_at (spelled row ++ rest) ≡ Some (row, rest) };

    /// No row's bytes are a proper prefix of another's.
    ghost no_prefix: { (row other : Self) (more : List ℕ) → is_row row → is_row other → spelled other ≡ spelled row ++ more → more ≡ [] };

    /// What a row of a state has in this section is spelled in at most 527 bytes.
    ghost few_bytes: { (row : Row) → HasShortWay row → IfSome (in_row row) (λ found. length (spelled found) ≤ 527) };
}
