//! The open cells of a ground, kept to be compared: what was found on a ground holds on it as long as no cell turns.

ghost use Rattle.std.specs.Prelude.{◌≡◌, IfOk};

use sim_base::{Global, OutOfMemory};
use sim_grid::Grid;

/// Which cells of a ground were open, by z, then x, 64 to a word.
#[derive(Drop)]
pub struct KeptCells {
    width: u16,
    depth: u16,
    words: Vec<u64>,
}

impl KeptCells {
    ghost use Rattle.std.specs.Prelude.{◌≡◌, true, IfOk};
    ghost use Rattle.sim_path.specs.Atlases.{ground_in};

    /// Those of a grid.
    pub fn of(alloc: Global, grid: &Grid) -> Result<KeptCells, OutOfMemory>
        ensures { IfOk result (λ kept. ground_in kept ≡ grid.now) }
    {
        let mut words = Vec::new(alloc);
        words.extend_from_slice(grid.words())?;
        Ok(KeptCells {
            width: grid.width(),
            depth: grid.depth(),
            words,
        })
    }

    /// Whether the cells of a grid are the same.
    pub fn are_of(&self, grid: &Grid) -> bool
        ensures { result ≡ true → ground_in self.now ≡ grid.now }
    {
        if self.width != grid.width() || self.depth != grid.depth() {
            return false;
        }
        self.words.as_slice() == grid.words()
    }
}
