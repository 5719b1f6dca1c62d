//! One flood over the ground, from all roots at once: it goes on by steps to the east, north, west and south between cells
//! of one holder, and comes to each cell once.

ghost use Rattle.std.specs.Prelude.{◌≡◌, ◌*◌, ◌<◌, ◌≤◌, length, vec_len};

use sim_base::{Cell, Global, OutOfMemory};

/// The cells to which the flood has come, and those whose neighbours were not looked at yet.
#[derive(Drop)]
pub struct Flood {
    pub width: u16,
    pub depth: u16,
    pub flags: Vec<bool>,
    pub waiting: Vec<Cell>,
    ghost narrow: { width ≤ 256 },
    ghost shallow: { depth ≤ 256 },
    ghost full: { vec_len flags ≡ width * depth },
}

impl Flood {
    ghost use Rattle.std.specs.Prelude.{[], false, IfOk, length, OnOk, replicate, ◌*◌, ◌<◌, ◌≡◌, ◌≤◌};
    ghost use Rattle.sim_territory.specs.Common.{cell_at as cell_at_numbers, IsOnGround, neighbour, place_of};
    ghost use Rattle.sim_territory.specs.Holders.{AllWait, Fills, ground_of, ground_size, IsHeldCell, Spreads, StepsOn, Wets};

    /// It has come to no cell yet.
    pub fn new(alloc: Global, width: u16, depth: u16) -> Result<Flood, OutOfMemory>
        requires narrow { width ≤ 256 }
        requires shallow { depth ≤ 256 }
        ensures size { IfOk result (λ flood. ground_size flood ≡ record { width = width; depth = depth }) }
        ensures flags { IfOk result (λ flood. flood.flags.items ≡ replicate (width * depth) false) }
        ensures waiting { IfOk result (λ flood. flood.waiting.items ≡ []) }
    {
        let cells = usize::from(width) * usize::from(depth);
        Ok(Flood {
            width,
            depth,
            flags: vec![in alloc; false; cells]?,
            waiting: Vec::new(alloc),
        })
    }

    // Where a cell stands in a list by z, then x.
    fn place(&self, cell: Cell) -> usize
        requires { IsOnGround (ground_size self.now) cell }
        ensures place { result ≡ place_of (ground_size self.now) cell }
        ensures below { result < self.now.width * self.now.depth }
    {
        usize::from(cell.z) * usize::from(self.width) + usize::from(cell.x)
    }

    /// Comes to a cell.
    pub fn wet(&mut self, cell: Cell) -> Result<(), OutOfMemory>
        requires { IsOnGround (ground_size self.old) cell }
        ensures { OnOk result (Wets self.old self.new cell) }
    {
        let place = self.place(cell);
        if !self.flags[place] {
            self.waiting.push(cell)?;
            self.flags[place] = true;
        }
        Ok(())
    }

    // The cell to the east, north, west or south, if the ground has one.
    fn beside(&self, cell: Cell, which: u8) -> Option<Cell>
        requires { which < 4 }
        ensures { result ≡ neighbour (ground_size self.now) cell which }
    {
        let x = i32::from(cell.x);
        let z = i32::from(cell.z);
        match which {
            0 => self.cell_at(x + 1, z),
            1 => self.cell_at(x, z + 1),
            2 => self.cell_at(x - 1, z),
            _ => self.cell_at(x, z - 1),
        }
    }

    // The cell at these two numbers, if the ground has one.
    fn cell_at(&self, x: i32, z: i32) -> Option<Cell>
        ensures { result ≡ cell_at_numbers (ground_size self.now) x z }
    {
        if 0 <= x && x < i32::from(self.width) && 0 <= z && z < i32::from(self.depth) {
            Some(Cell {
                x: x as u16,
                z: z as u16,
            })
        } else {
            None
        }
    }

    // Goes on from a cell in one direction, if the same player holds where that leads.
    fn step(&mut self, holders: &[u8], from: Cell, which: u8) -> Result<(), OutOfMemory>
        requires held { IsHeldCell self.old holders.now from }
        requires straight { which < 4 }
        ensures { OnOk result (StepsOn (ground_of self.old holders.now) self.old self.new from which) }
    {
        match self.beside(from, which) {
            Some(to) if holders[self.place(to)] == holders[self.place(from)] => self.wet(to),
            _ => Ok(()),
        }
    }

    // Goes on from a cell in all four directions.
    fn spread(&mut self, holders: &[u8], from: Cell) -> Result<(), OutOfMemory>
        requires { IsHeldCell self.old holders.now from }
        ensures { OnOk result (Spreads (ground_of self.old holders.now) self.old self.new from 4) }
    {
        for which in 0..4u8 {
            self.step(holders, from, which)?;
        }
        Ok(())
    }

    /// Goes on until it has come to all cells that held steps lead to.
    pub fn fill(&mut self, holders: &[u8]) -> Result<(), OutOfMemory>
        requires full { length holders.now ≡ self.old.width * self.old.depth }
        requires all { AllWait self.old }
        ensures { OnOk result (Fills (ground_of self.old holders.now) self.old self.new) }
    {
        while let Some(from) = self.waiting.pop() {
            self.spread(holders, from)?;
        }
        Ok(())
    }
}
