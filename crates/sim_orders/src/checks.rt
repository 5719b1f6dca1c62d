//! The conditions of commands: who may be attacked, what is trained, and whether there is room.

ghost use Rattle.std.specs.Prelude.{length, nat_lt, slice_get, ◌&&◌, ◌<◌, ◌≡◌};
ghost use Rattle.sim_base.specs.{Commands.is_enemy as is_enemy_by, Commands.lists as lists_by, Commands.trains as trains_by, Limits.IsFrom};
ghost use Rattle.sim_base.specs.{Limits.IsLooselyValid, Limits.IsSetup, Limits.row_limit, Rows.row_of, Rows.template_of};

use sim_base::{MAX_ROWS, Row, Setup, State, Template};
use sim_plans::{find_row, is_enemy_of, template_at};

/// Whether the player may attack the row with this id: it is alive, has health, and is an enemy's.
pub fn is_enemy(setup: &Setup, state: &State, player: u8, target: u32) -> bool
    requires limits { IsSetup setup.now }
    requires valid { IsLooselyValid setup.now state.now }
    requires player { IsFrom 1 setup.now.players player }
    ensures { result ≡ is_enemy_by setup.now player (row_of state.now target) }
{
    match find_row(state, target) {
        Some(row) => row.health.is_some() && is_enemy_of(setup, player, row.owner),
        None => false,
    }
}

/// Whether the building trains templates of this number, and these are no obstructions.
pub fn trains(setup: &Setup, building: &Row, number: u16) -> bool
    ensures { result ≡ trains_by (template_of setup.now building.now) number (slice_get setup.now.templates number) }
{
    match (
        template_at(setup, building.template),
        template_at(setup, number),
    ) {
        (Some(trainer), Some(template)) => lists(trainer, number) && template.obstruct.is_none(),
        _ => false,
    }
}

// Whether the number is among those that the template trains.
fn lists(trainer: &Template, number: u16) -> bool
    ensures { result ≡ lists_by number trainer.now.train }
{
    match &trainer.train {
        Some(numbers) => numbers.as_slice().contains(&u32::from(number)),
        None => false,
    }
}

/// Whether a row may be made for a player who has so many.
pub fn has_room(setup: &Setup, state: &State, count: u32) -> bool
    ensures { result ≡ (nat_lt (length state.now.rows) row_limit && nat_lt state.now.next 0x20000000 && nat_lt count setup.now.cap) }
{
    state.rows.as_slice().len() < MAX_ROWS
        && state.next < 0x2000_0000
        && count < u32::from(setup.cap)
}
