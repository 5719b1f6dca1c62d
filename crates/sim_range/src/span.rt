//! Rows and columns of buckets. They stand apart from the calls that find them, whose contracts speak of them.

ghost use Rattle.std.specs.Prelude.{◌≤◌};

/// Numbers of rows, or of columns, of buckets, of which there are 16: from the first on, and below the end.
#[derive(Clone, Copy, Debug)]
pub struct Span {
    pub first: usize,
    pub end: usize,
    ghost order: { first ≤ end },
    ghost within: { end ≤ 16 },
}

impl Span {
    ghost use Rattle.std.specs.Prelude.{false, true, ◌≡◌};
    ghost use Rattle.sim_range.specs.Sights.{IsIn};

    /// Whether a number is one of them.
    pub fn has(&self, number: usize) -> bool
        ensures yes { result ≡ true → IsIn self.now number }
        ensures no { result ≡ false → IsIn self.now number → ⊥ }
    {
        self.first <= number && number < self.end
    }
}

/// The buckets of some rows and columns.
#[derive(Clone, Copy, Debug)]
pub struct Area {
    pub rows: Span,
    pub columns: Span,
}
