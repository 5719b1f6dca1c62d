//! A row is released, leaves or is made. It is found near the last one or by halves, and no other is touched.

ghost use Rattle.sim_base.specs.{Commands.{new_row as row_made, released as released_by}, declared.state.Row.Row as AnyRow, Rows.id_of};
ghost use Rattle.sim_board.specs.Letting.{row_released, rows_released};
ghost use Rattle.std.specs.{List.Sorted.IsStrictlyIncreasing, Prelude.{filter, map, not, OnOk, [], ◌++◌, ◌==◌, ◌∷◌, ◌≡◌}};

use crate::near::place_near;
use crate::row::Birth;
use sim_base::{Aim, Motion, OutOfMemory, Row, Template};

// The row is released.
fn release(row: &mut Row)
    ensures { row.new ≡ released_by row.old }
{
    if let Some(aim) = row.attack {
        row.attack = Some(Aim { target: 0, ..aim });
    }
    if row.motion.is_some() {
        row.motion = Some(Motion::Still);
    }
}

// The row with this id is released. Answers where it stands, which is a hint for the next.
fn release_row(rows: &mut Vec<Row>, id: u32, near: usize) -> usize
    requires { IsStrictlyIncreasing (map id_of rows.old.items) }
    ensures { rows.new.items ≡ row_released rows.old.items id }
{
    let Some(place) = place_near(rows.as_slice(), id, near) else {
        return near;
    };
    release(&mut rows[place]);
    place
}

/// The rows with these ids are released.
pub fn release_rows(rows: &mut Vec<Row>, ids: &[u32])
    requires { IsStrictlyIncreasing (map id_of rows.old.items) }
    ensures rows { rows.new.items ≡ rows_released ids.now rows.old.items }
    ensures ids { map id_of rows.new.items ≡ map id_of rows.old.items }
{
    let mut near = 0;
    for id in ids {
        near = release_row(rows, *id, near);
    }
}

/// The row with this id leaves.
pub fn take_row(rows: &mut Vec<Row>, id: u32, near: usize)
    requires { IsStrictlyIncreasing (map id_of rows.old.items) }
    ensures { rows.new.items ≡ filter (λ (row : AnyRow). not (row.id == id)) rows.old.items }
{
    if let Some(place) = place_near(rows.as_slice(), id, near) {
        rows.remove(place);
    }
}

/// A new row of a template comes last.
pub fn add_row(
    rows: &mut Vec<Row>,
    id: u32,
    birth: &Birth,
    template: &Template,
) -> Result<(), OutOfMemory>
    ensures { let b = birth.now in
        OnOk result (rows.new.items ≡ rows.old.items ++ row_made id b.number b.at b.owner template.now ∷ []) }
{
    rows.push(Row {
        id,
        template: birth.number,
        at: birth.at,
        owner: birth.owner,
        health: template.health,
        motion: template.speed.map(|_| Motion::Still),
        attack: template.arms.map(|_| Aim {
            target: 0,
            cooldown: 0,
            hold: false,
        }),
    })?;
    Ok(())
}
