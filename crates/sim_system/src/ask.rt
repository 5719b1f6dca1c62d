//! The questions that systems are asked, and what they answer.

ghost use Rattle.std.specs.Prelude.{◌≡◌};
ghost use Rattle.sim_system.specs.Meanings.{kind_for};

use crate::{Kind, Way};
use sim_base::{Cell, Fixed, Ids, Point, Rect};

/// Whether a cell or a rectangle is open; the way between two points; the open cell nearest to a point; who is within a
/// radius; whom an entity sees; who aims at it; and how many an owner has.
#[derive(Clone, Copy, Debug, PartialEq, Eq)]
pub enum Ask {
    Open { cell: Cell },
    Free { rect: Rect },
    Way { start: Point, goal: Point },
    Spot { at: Point },
    Within { at: Point, radius: Fixed, mask: u16 },
    Seen { id: u32 },
    Watchers { id: u32 },
    Count { owner: u8 },
}

impl Ask {
    /// The kind of system that is asked.
    pub fn kind(&self) -> Kind
        ensures { result ≡ kind_for self.now }
    {
        match self {
            Ask::Open { .. } | Ask::Free { .. } | Ask::Way { .. } | Ask::Spot { .. } => {
                Kind::Ground
            }
            Ask::Within { .. } | Ask::Seen { .. } => Kind::Range,
            Ask::Watchers { .. } => Kind::Watch,
            Ask::Count { .. } => Kind::Census,
        }
    }
}

/// An answer: `Truth` to Open and Free, `Found` to Way, `Place` to Spot, `Many` to Within, Seen and Watchers, and
/// `Number` to Count.
#[derive(Debug, Drop)]
pub enum Answer {
    Truth { yes: bool },
    Found { way: Way },
    Place { cell: Option<Cell> },
    Many { ids: Ids },
    Number { n: u32 },
}
