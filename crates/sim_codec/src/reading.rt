//! A state in memory of its own, made of one that still stands in its bytes.

ghost use Rattle.std.specs.Prelude.{◌≡◌, ◌+◌, ◌≤◌, ◌++◌, map, length, IfOk, None};
ghost use Rattle.sim_codec.specs.Common.{point_in, row_of};

use crate::stored::{Stored, StoredRows};
use sim_base::{Items, Motion, OutOfMemory, Point, Row, Rows, State};
use sim_bytes::{MotionRow, Parts, point_of};
use std::alloc::{AllocError, Global};

// The points of a way, in memory of their own.
fn points_of(alloc: Global, points: &[Point], stored: &[[u8; 8]]) -> Result<Vec<Point>, AllocError>
    requires { length points.now + length stored.now ≤ 64 }
    ensures { IfOk result (λ way. way.items ≡ points.now ++ map point_in stored.now) }
{
    let mut way = Vec::with_capacity(alloc, points.len() + stored.len())?;
    way.extend_from_slice(points)?;
    for bytes in stored {
        way.push(point_of(bytes))?;
    }
    Ok(way)
}

// A motion, its way in memory of its own.
fn motion_of(alloc: Global, row: MotionRow<'_>) -> Result<Motion, AllocError>
    ensures { IfOk result (λ motion. motion ≡ row.entry.1) }
{
    if !row.going {
        return Ok(Motion::Still);
    }
    let points = points_of(alloc, row.points, row.stored)?;
    Ok(Motion::Going {
        goal: row.goal,
        way: Items::from_items(points),
        whole: row.whole,
    })
}

fn row_from(alloc: Global, parts: Parts<'_>) -> Result<Row, AllocError>
    ensures { IfOk result (λ row. row ≡ row_of parts.entry) }
{
    let attack = parts.aim();
    let Parts {
        entity,
        position,
        owner,
        health,
        motion,
        ..
    } = parts;
    let motion = match motion {
        None => None,
        Some(row) => Some(motion_of(alloc, row)?),
    };
    Ok(Row {
        id: entity.id,
        template: entity.template,
        at: position.at,
        owner: owner.owner,
        health: health.map(|row| row.health),
        motion,
        attack,
    })
}

fn rows_of(alloc: Global, mut stored: StoredRows<'_>) -> Result<Rows, OutOfMemory>
    ensures { IfOk result (λ rows. rows ≡ stored.entry) }
{
    let mut rows = Vec::with_capacity(alloc, stored.left())?;
    'rows: while let Some(parts) = stored.next() {
        rows.push(row_from(alloc, parts)?)?;
    }
    Ok(Rows::from_items(rows))
}

/// The state that stands in bytes.
pub fn state_of(alloc: Global, stored: Stored<'_>) -> Result<State, OutOfMemory>
    ensures { IfOk result (λ state. state ≡ stored.entry) }
{
    let rows = rows_of(alloc, stored.rows)?;
    Ok(State {
        turn: stored.turn,
        next: stored.next,
        word: stored.word,
        rows,
    })
}
