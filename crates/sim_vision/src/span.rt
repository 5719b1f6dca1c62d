//! A span of cells in a row of the ground.

/// The cells from x `from` up to, and without, x `to`, which is not below `from`.
#[derive(Clone, Copy, Debug, PartialEq, Eq)]
pub struct Span {
    pub from: u16,
    pub to: u16,
}

impl Span {
    /// No cell.
    pub const EMPTY: Span = Span { from: 0, to: 0 };
}
