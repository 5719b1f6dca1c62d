//! A state in memory of its own, so that a turn that finds no memory leaves the other as it was.

ghost use Rattle.std.specs.Prelude.{◌≡◌, IfOk};

use sim_base::{Global, Items, Motion, OutOfMemory, Row, Rows, State};

fn motion_of(motion: &Option<Motion>) -> Result<Option<Motion>, OutOfMemory>
    ensures { IfOk result (λ copied. copied ≡ motion.now) }
{
    match motion {
        Some(motion) => Ok(Some(motion.copy()?)),
        None => Ok(None),
    }
}

fn row_of(row: &Row) -> Result<Row, OutOfMemory>
    ensures { IfOk result (λ copied. copied ≡ row.now) }
{
    Ok(Row {
        id: row.id,
        template: row.template,
        at: row.at,
        owner: row.owner,
        health: row.health,
        motion: motion_of(&row.motion)?,
        attack: row.attack,
    })
}

fn rows_of(alloc: Global, rows: &[Row]) -> Result<Rows, OutOfMemory>
    ensures { IfOk result (λ copied. copied ≡ rows.now) }
{
    let mut copied = Vec::with_capacity(alloc, rows.len())?;
    for row in rows {
        copied.push(row_of(row)?)?;
    }
    Ok(Items::from_items(copied))
}

/// The same state, in memory of its own.
pub fn copy_of(alloc: Global, state: &State) -> Result<State, OutOfMemory>
    ensures { IfOk result (λ copied. copied ≡ state.now) }
{
    Ok(State {
        turn: state.turn,
        next: state.next,
        word: state.word,
        rows: rows_of(alloc, state.rows.as_slice())?,
    })
}

/// A state with no row, which stands where another was taken out.
pub fn no_state(alloc: Global) -> State {
    State {
        turn: 0,
        next: 2,
        word: 0,
        rows: Items::new(alloc),
    }
}
