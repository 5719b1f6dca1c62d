//! The open cells of a ground, 64 to a word. They stand beside the truth values, so that two grounds are compared by words.

ghost use Rattle.std.specs.Prelude.{◌≡◌, ◌+◌, ◌/◌, ◌<◌, ◌≤◌, true, Bool, List, replicate, slice_set, IfOk, length, vec_len};
ghost use Rattle.sim_grid.specs.Packed.{ArePacked};

use sim_base::{Global, OutOfMemory};

// How many cells a word tells of.
const CELLS: usize = 64;

/// The words of so many cells, all open.
pub fn all_open(alloc: Global, count: usize) -> Result<Vec<u64>, OutOfMemory>
    requires { count ≤ 65536 }
    ensures { IfOk result (λ words. ArePacked (replicate count true) words.items) }
{
    let words = count / CELLS + 1;
    Ok(vec![in alloc; u64::MAX; words]?)
}

/// Notes that the cell at a place is open or closed now.
pub fn note_word(words: &mut Vec<u64>, place: usize, free: bool)
    requires { place / 64 < vec_len words.old }
    ensures { (cells : List Bool) → ArePacked cells words.old.items → place < length cells → ArePacked (slice_set cells place free) words.new.items }
{
    let bit = 1u64 << (place % CELLS);
    if free {
        words[place / CELLS] |= bit;
    } else {
        words[place / CELLS] &= !bit;
    }
}
