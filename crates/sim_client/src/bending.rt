//! The health of an entity is bent, on the board of one client alone.

ghost use Rattle.sim_base.specs.{Limits.IsValid, Rows.{id_of, row_of}, Turn.{bent, is_health_of, may_bend as may_bend_by}};
ghost use Rattle.{sim_board.specs.Boards.{AreKept, IsWhole, setup_in, state_in, systems}, sim_plans.specs.RowChanges.most_of as most_by};
ghost use Rattle.std.specs.{List.Sorted.IsStrictlyIncreasing, Prelude.{map, ◌≡◌}};

use sim_base::{Change, Fixed, Row, Setup, State};
use sim_board::Board;
use sim_plans::{find_row, template_at};
use sim_system::System;

// The greatest health of a row that has health.
fn most_of(setup: &Setup, row: &Row) -> Option<Fixed>
    ensures { result ≡ most_by setup.now row.now }
{
    match template_at(setup, row.template) {
        Some(template) => template.health,
        None => None,
    }
}

// A health from 1 to the greatest of a row that has health.
fn is_health(health: Fixed, old: Option<Fixed>, most: Option<Fixed>) -> bool
    ensures { result ≡ is_health_of health old most }
{
    match old {
        Some(_) => match most {
            Some(most) => 1 <= health.raw() && health.raw() <= most.raw(),
            None => false,
        },
        None => false,
    }
}

// Whether an entity is alive that may have this health.
fn may_bend(setup: &Setup, state: &State, entity: u32, health: Fixed) -> bool
    requires { IsStrictlyIncreasing (map id_of state.now.rows) }
    ensures { result ≡ may_bend_by setup.now health (row_of state.now entity) }
{
    match find_row(state, entity) {
        Some(row) => is_health(health, row.health, most_of(setup, row)),
        None => false,
    }
}

/// Sets the health of an entity that is alive and may have it, and answers whether there is one.
pub fn bend(board: &mut Board<'_>, entity: u32, health: Fixed) -> bool
    requires whole { IsWhole board.old ⟦<dyn System as System>⟧ }
    requires valid { IsValid (setup_in board.old) (state_in board.old) }
    ensures told { result ≡ may_bend_by (setup_in board.old) health (row_of (state_in board.old) entity) }
    ensures state { state_in board.new ≡ bent (setup_in board.old) (state_in board.old) entity health }
    ensures whole { IsWhole board.new ⟦<dyn System as System>⟧ }
    ensures kept { AreKept (systems board.old ⟦<dyn System as System>⟧) (systems board.new ⟦<dyn System as System>⟧) }
    ensures setup { setup_in board.new ≡ setup_in board.old }
{
    let change = Change::Health { id: entity, health };
    may_bend(board.setup(), board.scene().state, entity, health) && board.apply(change).is_ok()
}
