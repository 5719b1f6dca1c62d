//! All that a system lends, mixed into one number, so that two moments, and a system and a plain list, are compared without
//! memory.

use sim_base::Cell;
use sim_census::Census;
use sim_ground::Ground;
use sim_range::Range;
use sim_watch::Watch;

/// The ground of the battle, in cells.
pub const WIDTH: u16 = 24;

pub const DEPTH: u16 = 16;

/// The ids that the battle has are below this.
pub const IDS: u32 = 32;

/// A system that lends what it keeps.
pub trait Lends {
    /// All that it lends, mixed into one number.
    fn lent(&self) -> u64;
}

/// One number more.
pub fn mixed(sum: u64, number: u32) -> u64 {
    sum.wrapping_mul(0x0100_0000_01b3)
        .wrapping_add(u64::from(number))
        .wrapping_add(1)
}

/// A list more.
pub fn mixed_list(sum: u64, numbers: &[u32]) -> u64 {
    let mut sum = mixed(sum, u32::MAX);
    for number in numbers {
        sum = mixed(sum, *number);
    }
    sum
}

impl Lends for Ground {
    fn lent(&self) -> u64 {
        let mut sum = 0;
        for layers in self.layers() {
            sum = mixed(sum, u32::from(*layers));
        }
        let Some(labels) = self.regions() else {
            return sum;
        };
        for z in 0..DEPTH {
            for x in 0..WIDTH {
                sum = mixed(sum, labels.of(Cell { x, z }).unwrap_or(u32::MAX));
            }
        }
        sum
    }
}

impl Lends for Range {
    fn lent(&self) -> u64 {
        let mut sum = 0;
        for bz in 0..16u8 {
            for bx in 0..16u8 {
                sum = mixed_list(sum, self.bucket(bx, bz));
            }
        }
        for id in 0..IDS {
            if let Some(ids) = self.kept(id) {
                sum = mixed_list(sum, ids);
            }
        }
        sum
    }
}

impl Lends for Watch {
    fn lent(&self) -> u64 {
        let mut sum = 0;
        for id in 0..IDS {
            sum = mixed_list(sum, self.list(id));
        }
        sum
    }
}

impl Lends for Census {
    fn lent(&self) -> u64 {
        mixed_list(0, self.counts().as_slice())
    }
}
