//! The help of a command, made by asking a scene. It is asked for the count always, for a free rectangle where the command
//! places a known template that is an obstruction at a point inside, and for a spot where a building that is alive trains.

ghost use Rattle.std.specs.Prelude.{IfOk, IsOk, None, option_and_then, slice_get, ◌≡◌};
ghost use Rattle.sim_base.specs.{Commands.is_placeable as is_placeable_by, Commands.spot, Rows.row_of, declared.state.Row.Row as AnyRow};
ghost use Rattle.{sim_orders.specs.Orders.IsHelp, sim_orders.specs.Orders.NeedsNoSpot, sim_plans.specs.SceneWords.Stands};

use crate::help::Help;
use sim_base::{Cell, Command, OutOfMemory, PlayerCommand, Point, rect_of};
use sim_plans::{Scene, find_row, is_inside, template_at};
use sim_system::{Answer, Ask, System};

/// What a planner of the order needs of the systems.
pub fn help_of(scene: &Scene<'_>, order: &PlayerCommand) -> Result<Help, OutOfMemory>
    requires { Stands scene.now ⟦<dyn System as System>⟧ }
    ensures value { IfOk result (IsHelp scene.now.setup.now scene.now.state.now order.now.player order.now.command) }
    ensures light { NeedsNoSpot scene.now.state.now order.now.command → IsOk result }
{
    let Ok(Answer::Number { n: count }) = scene.ask(&Ask::Count {
        owner: order.player,
    }) else {
        unreachable!()
    };
    let (free, spot) = match &order.command {
        Command::Place { template, at } => (is_placeable(scene, *template, at), None),
        Command::Train { building, .. } => (false, spot_of(scene, *building)?),
        _ => (false, None),
    };
    Ok(Help { count, free, spot })
}

// Whether the template may stand at the point: it is an obstruction, the point is inside, and the rectangle is free.
fn is_placeable(scene: &Scene<'_>, number: u16, at: &Point) -> bool
    requires { Stands scene.now ⟦<dyn System as System>⟧ }
    ensures { result ≡ is_placeable_by scene.now.setup.now scene.now.state.now at.now (slice_get scene.now.setup.now.templates number) }
{
    let Some(template) = template_at(scene.setup, number) else {
        return false;
    };
    match template.obstruct {
        Some(base) if is_inside(&scene.setup.land, at) => {
            let rect = rect_of(*at, base.width, base.depth);
            match scene.ask(&Ask::Free { rect }) {
                Ok(Answer::Truth { yes }) => yes,
                _ => unreachable!(),
            }
        }
        _ => false,
    }
}

// The cell where the building would put a new row, if it is alive.
fn spot_of(scene: &Scene<'_>, building: u32) -> Result<Option<Cell>, OutOfMemory>
    requires { Stands scene.now ⟦<dyn System as System>⟧ }
    ensures value { IfOk result (λ found. found ≡ option_and_then (λ (row : AnyRow). spot scene.now.setup.now scene.now.state.now row.at)
        (row_of scene.now.state.now building)) }
    ensures light { row_of scene.now.state.now building ≡ None → IsOk result }
{
    let Some(row) = find_row(scene.state, building) else {
        return Ok(None);
    };
    match scene.ask(&Ask::Spot { at: row.at })? {
        Answer::Place { cell } => Ok(cell),
        _ => unreachable!(),
    }
}
