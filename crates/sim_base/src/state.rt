//! What a match has come to: one row for each entity that is alive.

ghost use Rattle.std.specs.Prelude.{◌≡◌, IfOk};

use crate::{Fixed, Items, OutOfMemory, Point, Points};

/// Whether an entity moves. One that is going has a goal and the waypoints still to be reached; `whole` says that the
/// way leads to its end. An empty way that is not whole has still to be asked.
#[derive(Debug, Drop)]
pub enum Motion {
    Still,
    Going {
        goal: Point,
        way: Points,
        whole: bool,
    },
}

impl Motion {
    /// The same, in memory of its own.
    pub fn copy(&self) -> Result<Motion, OutOfMemory>
        ensures { IfOk result (λ copied. copied ≡ self.now) }
    {
        match self {
            Motion::Still => Ok(Motion::Still),
            Motion::Going { goal, way, whole } => Ok(Motion::Going {
                goal: *goal,
                way: way.copy()?,
                whole: *whole,
            }),
        }
    }
}

/// Whom an entity attacks, or 0; the turns until it may hit again; and whether it holds its place.
#[derive(Clone, Copy, Debug, PartialEq, Eq)]
pub struct Aim {
    pub target: u32,
    pub cooldown: u16,
    pub hold: bool,
}

/// An entity: its id, from 2, the number of its template, its place, its owner, and those of health, motion and attack
/// that its template has.
#[derive(Debug, Drop)]
pub struct Row {
    pub id: u32,
    pub template: u16,
    pub at: Point,
    pub owner: u8,
    pub health: Option<Fixed>,
    pub motion: Option<Motion>,
    pub attack: Option<Aim>,
}

/// The entities, ascending by id.
pub type Rows = Items<Row>;

/// How many entities may be alive at a time.
pub const MAX_ROWS: usize = 4096;

/// How many waypoints a way has at most.
pub const MAX_WAYPOINTS: usize = 64;

/// How many bytes a stored state has at most: 75, and 573 for each of 4096 entities with all parts and a way of 64
/// waypoints. `docs/FORMATS.md` has the layout.
pub const MAX_STATE: usize = 2_347_083;

/// A match at a turn: how many turns were played, the id of the next new entity, the random word, and the entities.
#[derive(Debug, Drop)]
pub struct State {
    pub turn: u32,
    pub next: u32,
    pub word: u64,
    pub rows: Rows,
}
