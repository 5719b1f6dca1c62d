//! The ways of the rows of a state as text: a line for each row that has waypoints ahead.

ghost use Rattle.sim_report.specs.{Appending.{Appends, AppendsInParts}, Show.{next_point, row_way, way_ahead as points_ahead, way_line, ways_text}};
ghost use Rattle.std.specs.Prelude.{flat_map, ◌≡◌};

use crate::down::append_number;
use crate::show::write_point;
use sim_base::{Motion, OutOfMemory, Point, Row, State};

/// Appends the ways of the rows of a state, ascending by id as the state has them, or leaves the text as it was.
pub fn push_ways(state: &State, out: &mut String) -> Result<(), OutOfMemory>
    ensures { Appends result out.old out.new (ways_text state.now) }
{
    let length = out.len();
    match append_ways(state, out) {
        Ok(()) => Ok(()),
        Err(stop) => {
            out.truncate(length);
            Err(stop)
        }
    }
}

// After an error some of the lines may stand behind the old text; or a part of one, here and below.
fn append_ways(state: &State, out: &mut String) -> Result<(), OutOfMemory>
    ensures { AppendsInParts result out.old out.new (ways_text state.now) }
{
    for row in state.rows.as_slice() {
        append_row(row, out)?;
    }
    Ok(())
}

fn append_row(row: &Row, out: &mut String) -> Result<(), OutOfMemory>
    ensures { AppendsInParts result out.old out.new (row_way row.now) }
{
    append_way(row.id, way_ahead(&row.motion), out)
}

// The waypoints that are still to be reached.
fn way_ahead(motion: &Option<Motion>) -> &[Point]
    ensures { result.now ≡ points_ahead motion.now }
{
    match motion {
        Some(Motion::Going { way, .. }) => way.as_slice(),
        _ => &[],
    }
}

fn append_way(id: u32, way: &[Point], out: &mut String) -> Result<(), OutOfMemory>
    ensures { AppendsInParts result out.old out.new (way_line id way.now) }
{
    if way.is_empty() {
        return Ok(());
    }
    append_number("way ", u64::from(id), out)?;
    append_points(way, out)?;
    out.push_str("\n")?;
    Ok(())
}

// Each waypoint behind a space.
fn append_points(way: &[Point], out: &mut String) -> Result<(), OutOfMemory>
    ensures { AppendsInParts result out.old out.new (flat_map next_point way.now) }
{
    for point in way {
        append_point(*point, out)?;
    }
    Ok(())
}

fn append_point(point: Point, out: &mut String) -> Result<(), OutOfMemory>
    ensures { AppendsInParts result out.old out.new (next_point point) }
{
    out.push_str(" ")?;
    write_point(point, out)
}
