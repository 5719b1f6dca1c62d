//! Which cells of a row a rectangle has, or which rows: its ends are any numbers, and those of the ground are not.

ghost use Rattle.std.specs.Prelude.{◌≡◌, ℕ, ◌<◌, ◌≤◌, ◌&&◌, pos, nat_lt, nat_le, int_le};

// The first of so many cells that is not below a number.
fn first_from(low: i32, cells: u16) -> u16
    ensures most { result ≤ cells }
    ensures first { (n : ℕ) → n < cells → nat_le result n ≡ int_le low (pos n) }
{
    if low < 0 {
        0
    } else if low < i32::from(cells) {
        low as u16
    } else {
        cells
    }
}

// One past the last of so many cells that is not above a number.
fn end_at(high: i32, cells: u16) -> u16
    ensures most { result ≤ cells }
    ensures end { (n : ℕ) → n < cells → nat_lt n result ≡ int_le (pos n) high }
{
    if high < 0 {
        0
    } else if high < i32::from(cells) {
        high as u16 + 1
    } else {
        cells
    }
}

/// Where a stretch of numbers, whose ends are its own, begins and is past its end among so many cells.
pub fn span(low: i32, high: i32, cells: u16) -> (u16, u16)
    ensures order { result.0 ≤ result.1 }
    ensures most { result.1 ≤ cells }
    ensures span { (n : ℕ) → n < cells → (nat_le result.0 n && nat_lt n result.1) ≡ (int_le low (pos n) && int_le (pos n) high) }
{
    let first = first_from(low, cells);
    let end = end_at(high, cells);
    (first, if end < first { first } else { end })
}
