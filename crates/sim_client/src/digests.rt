//! The digests of the states that were digested last. The clients of a session reach equal states one after another: one that
//! is equal to a state that is kept has its digests, and they are made once for all of them.

ghost use Rattle.std.specs.Prelude.{◌≡◌, ◌^◌, ◌<◌, ◌↔◌, length, if◌then◌else◌, true, IfOk, IfSome, IsTrue, All};
ghost use Rattle.sim_base.specs.{Spelling.is_full_turn as is_full, declared.setup.Setup.Setup as AnySetup};
ghost use Rattle.{sim_client.specs.Kept.AreDigests, sim_bytes.specs.Rows.HasShortWay};

use sim_base::{Global, Items, Motion, OutOfMemory, Point, Points, Row, Rows, Setup, State};
use sim_codec::{digest, is_full_turn, quick};
use sim_diff::is_same;

/// How many states are kept.
pub const MOST_KEPT: usize = 4;

/// The whole digest of a state and the quick one.
#[derive(Clone, Copy, Debug)]
pub struct Both {
    pub whole: [u8; 16],
    pub quick: [u8; 16],
}

impl Both {
    /// What a report of a state of this turn carries.
    pub fn mark(&self, turn: u32) -> [u8; 16]
        ensures { result ≡ (if is_full turn then self.now.whole else self.now.quick) }
    {
        if is_full_turn(turn) {
            self.whole
        } else {
            self.quick
        }
    }
}

// A state that was digested, with the id of its match.
#[derive(Drop)]
struct Kept {
    id: [u8; 16],
    state: State,
    both: Both,
    ghost right: { (setup : AnySetup) → setup.id ≡ id → AreDigests setup state both },
}

/// The states that were digested last, each beside its digests, and a room for the rows of the next one. What it is of is said by
/// each itself, so states of any match may be asked for.
#[derive(Drop)]
pub struct Digests {
    alloc: Global,
    kept: Vec<Kept>,
    room: Vec<Row>,
}

// The room of a way that is kept no more.
fn room_in(alloc: Global, old: Option<Row>) -> Vec<Point> {
    match old {
        Some(
            Row {
                motion: Some(Motion::Going { way, .. }),
                ..
            },
        ) => way.into_items(),
        _ => Vec::new(alloc),
    }
}

// A copy of a way, in a room that is there.
fn copy_way(room: Vec<Point>, way: &[Point]) -> Result<Points, OutOfMemory>
    ensures { IfOk result (λ copied. copied ≡ way.now) }
{
    let mut copied = room;
    copied.clear();
    copied.extend_from_slice(way)?;
    Ok(Items::from_items(copied))
}

// A copy of a motion, if there is one. Its way stands in the room of one that is kept no more.
fn copy_motion(
    alloc: Global,
    old: Option<Row>,
    motion: &Option<Motion>,
) -> Result<Option<Motion>, OutOfMemory>
    ensures { IfOk result (λ copied. copied ≡ motion.now) }
{
    match motion {
        Some(Motion::Going { goal, way, whole }) => Ok(Some(Motion::Going {
            goal: *goal,
            way: copy_way(room_in(alloc, old), way.as_slice())?,
            whole: *whole,
        })),
        Some(Motion::Still) => Ok(Some(Motion::Still)),
        None => Ok(None),
    }
}

fn copy_row(alloc: Global, old: Option<Row>, row: &Row) -> Result<Row, OutOfMemory>
    ensures { IfOk result (λ copied. copied ≡ row.now) }
{
    Ok(Row {
        id: row.id,
        template: row.template,
        at: row.at,
        owner: row.owner,
        health: row.health,
        motion: copy_motion(alloc, old, &row.motion)?,
        attack: row.attack,
    })
}

// Copies of rows, in a room that is there, and in those of the ways of others, which are kept no more.
fn copy_rows(
    alloc: Global,
    room: Vec<Row>,
    olds: &mut Vec<Row>,
    rows: &[Row],
) -> Result<Rows, OutOfMemory>
    ensures { IfOk result (λ copied. copied ≡ rows.now) }
{
    let mut copied = room;
    copied.clear();
    'rows: for row in rows {
        copied.push(copy_row(alloc, olds.pop(), row)?)?;
    }
    Ok(Items::from_items(copied))
}

// Whether it is of this match.
fn is_of_match(kept: &Kept, setup: &Setup) -> bool
    ensures { IsTrue result ↔ (setup.now.id ≡ kept.now.id) }
{
    setup.id == kept.id
}

// Whether it is of this state of this match.
fn is_of(kept: &Kept, setup: &Setup, state: &State) -> bool
    ensures { result ≡ true → AreDigests setup.now state.now kept.now.both }
{
    is_of_match(kept, setup) && is_same(&kept.state, state)
}

// The digests that are kept of a state.
fn found(kept: &[Kept], setup: &Setup, state: &State) -> Option<Both>
    ensures { IfSome result (AreDigests setup.now state.now) }
{
    'kept: for it in kept {
        if is_of(it, setup, state) {
            return Some(it.both);
        }
    }
    None
}

impl Digests {
    /// None is kept. It takes no memory.
    pub fn new(alloc: Global) -> Digests {
        Digests {
            alloc,
            kept: Vec::new(alloc),
            room: Vec::new(alloc),
        }
    }

    // The rows of the oldest state, which gives way, where as many are kept as may be.
    fn take_oldest(&mut self) -> Vec<Row> {
        if self.kept.len() < MOST_KEPT {
            return Vec::new(self.alloc);
        }
        let Kept { state, .. } = self.kept.remove(0);
        let State { rows, .. } = state;
        rows.into_items()
    }

    // A copy of a state, in rooms that are there.
    fn copy(&mut self, state: &State) -> Result<State, OutOfMemory>
        ensures { IfOk result (λ copied. copied ≡ state.now) }
    {
        let mut olds = self.take_oldest();
        let room = std::mem::replace(&mut self.room, Vec::new(self.alloc));
        let rows = copy_rows(self.alloc, room, &mut olds, state.rows.as_slice())?;
        self.room = olds;
        Ok(State {
            turn: state.turn,
            next: state.next,
            word: state.word,
            rows,
        })
    }

    // Keeps a state with its digests.
    fn keep(&mut self, setup: &Setup, state: &State, both: Both) -> Result<(), OutOfMemory>
        requires { AreDigests setup.now state.now both }
    {
        let state = self.copy(state)?;
        let id = setup.id;
        self.kept.push(Kept { id, state, both })?;
        Ok(())
    }

    /// The digests of a state, which is kept from then on. Where memory for that is wanted it is not kept. A valid state meets
    /// both conditions.
    pub fn of(&mut self, setup: &Setup, state: &State) -> Both
        requires short { All HasShortWay state.now.rows }
        requires few { length state.now.rows < 2 ^ 32 }
        ensures { AreDigests setup.now state.now result }
    {
        if let Some(both) = found(self.kept.as_slice(), setup, state) {
            return both;
        }
        let both = Both {
            whole: digest(setup, state),
            quick: quick(setup, state),
        };
        let _ = self.keep(setup, state, both);
        both
    }
}
