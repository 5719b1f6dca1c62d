//! The influences of the players beside the holder of each cell. Both are changed by the shifts of a trail: a building that
//! comes or goes changes the influences within its reach. After a few shifts the holders are found anew there, after many
//! everywhere, once.

ghost use Rattle.std.specs.Prelude.{IfOk, replicate, ◌*◌, ◌≡◌};
ghost use Rattle.sim_territory.specs.Holders.{AreHolders};

use crate::changes::mark_in;
use crate::sums::Sums;
use sim_base::{Cell, Global, OutOfMemory, Setup};
use sim_trail::Shift;

// So many shifts change fewer cells than a large ground has.
const FEW: usize = 32;

/// The influences of the players, and the holder of each cell by z, then x.
#[derive(Drop)]
pub struct Influences {
    pub sums: Sums,
    pub holders: Vec<u8>,
    ghost agree: { AreHolders sums holders.items },
}

impl Influences {
    ghost use Rattle.sim_territory.specs.{Common.IsOnGround, Holders.holder_by, Tables.{AreShifted, FitShifts, FitsShift, IsShifted, size_in, sum_at}};
    ghost use Rattle.std.specs.Prelude.{IfOk, replicate, ◌*◌, ◌≡◌};

    /// Nobody holds a cell where nobody has influence.
    pub fn new(alloc: Global, sums: Sums) -> Result<Influences, OutOfMemory>
        requires { sums.items.items ≡ replicate (sums.players * (sums.width * sums.depth)) 0 }
        ensures { IfOk result (λ made. made.sums ≡ sums) }
    {
        let holders = nobody(alloc, sums.width, sums.depth)?;
        Ok(Influences { sums, holders })
    }

    /// Who holds a cell.
    pub fn holder(&self, cell: Cell) -> u8
        requires { IsOnGround (size_in self.now.sums) cell }
        ensures { result ≡ holder_by self.now.sums.players (λ player. sum_at self.now.sums player cell) }
    {
        self.holders[self.sums.cell_place(cell)]
    }

    // Follows one shift, and finds the holders within its reach.
    fn shift(&mut self, setup: &Setup, shift: &Shift)
        requires { FitsShift setup.now shift.now self.old.sums }
        ensures { IsShifted setup.now shift.now self.old.sums self.new.sums }
    {
        self.sums.shift(setup, shift);
        self.sums
            .find_near(&mut self.holders, setup, &mark_in(shift));
    }

    /// Follows the shifts of a trail: few one by one, and else all before the holders are found.
    pub fn follow(&mut self, setup: &Setup, shifts: &[Shift])
        requires { FitShifts setup.now shifts.now self.old.sums }
        ensures { AreShifted setup.now shifts.now self.old.sums self.new.sums }
    {
        if shifts.len() > FEW {
            self.sums.follow(setup, shifts);
            self.sums.find_all(&mut self.holders);
            return;
        }
        for shift in shifts {
            self.shift(setup, shift);
        }
    }
}

// Nobody holds a cell.
fn nobody(alloc: Global, width: u16, depth: u16) -> Result<Vec<u8>, OutOfMemory>
    ensures { IfOk result (λ holders. holders.items ≡ replicate (width * depth) 0) }
{
    let cells = usize::from(width) * usize::from(depth);
    Ok(vec![in alloc; 0u8; cells]?)
}
