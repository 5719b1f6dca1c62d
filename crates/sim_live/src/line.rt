//! What a line asks for: a step of the session, or a look at it. Any other line asks for nothing.

ghost use Rattle.{serde_json.specs.View.view, sim_live.specs.{Live.{IsLine, line_in as line_in_data, line_of as line_of_bytes}, Reading.Reads}};

use crate::look::{Look, look_of};
use serde_json::Value;
use sim_base::{Global, OutOfMemory, Step};
use sim_json::value_of;
use sim_lists::step_of;

/// What a line asks for.
#[derive(Debug, Drop)]
pub enum Line {
    /// To make a step.
    Step { step: Step },
    /// To be shown something.
    Look { look: Look },
    /// Nothing that there is.
    Other,
}

/// What a line asks for in a session of so many players.
pub fn line_of(alloc: Global, players: u8, line: &[u8]) -> Result<Line, OutOfMemory>
    ensures { Reads (IsLine players) (line_of_bytes players line.now) result }
{
    match value_of(alloc, line)? {
        Some(value) => line_in(alloc, players, &value),
        None => Ok(Line::Other),
    }
}

fn line_in(alloc: Global, players: u8, value: &Value) -> Result<Line, OutOfMemory>
    ensures { Reads (IsLine players) (line_in_data players (view value.now)) result }
{
    if let Some(step) = step_of(alloc, players, value)? {
        return Ok(Line::Step { step });
    }
    match look_of(players, value) {
        Some(look) => Ok(Line::Look { look }),
        None => Ok(Line::Other),
    }
}
