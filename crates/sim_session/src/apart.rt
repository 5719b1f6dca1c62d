//! The lines of clients whose states differ. The bytes that each has there are not told, as they are where two stored
//! states are compared.

ghost use Rattle.std.specs.{List.Sorted.IsStrictlyIncreasing, Prelude.All, Prelude.OnOk, Prelude.map, Prelude.string_bytes, Prelude.◌++◌, Prelude.◌≡◌};
ghost use Rattle.sim_session.specs.Laws.{states_apart};
ghost use Rattle.{sim_base.specs.Rows.id_of, sim_bytes.specs.Rows.HasShortWay, sim_report.specs.Appending.Appends, sim_session.specs.Laws.apart_line};

use sim_base::{OutOfMemory, State};
use sim_diff::{Place, difference};
use sim_report::part_name;

/// Appends the line of two clients and of the first place at which their states differ, or leaves the text as it was.
pub fn push_apart(left: u8, right: u8, place: &Place, out: &mut String) -> Result<(), OutOfMemory>
    ensures { Appends result out.old out.new (apart_line left right place.now) }
{
    let mut line = String::new(*out.allocator());
    write_apart(left, right, place, &mut line)?;
    out.push_str(line.as_str())?;
    Ok(())
}

// The line is written as a text of its own, of which nothing is said after an error.
fn write_apart(left: u8, right: u8, place: &Place, line: &mut String) -> Result<(), OutOfMemory>
    ensures { OnOk result (string_bytes line.new ≡ string_bytes line.old ++ apart_line left right place.now) }
{
    let part = part_name(place.part);
    writeln!(
        line,
        "differ {left} {right} entity {} part {part}",
        place.entity
    )?;
    Ok(())
}

/// Appends the line of two clients, if their states are of one turn and differ.
pub fn push_difference(
    clients: (u8, u8),
    left: &State,
    right: &State,
    out: &mut String,
) -> Result<(), OutOfMemory>
    requires left_ascending { IsStrictlyIncreasing (map id_of left.now.rows) }
    requires left_short { All HasShortWay left.now.rows }
    requires right_ascending { IsStrictlyIncreasing (map id_of right.now.rows) }
    requires right_short { All HasShortWay right.now.rows }
    ensures { OnOk result (string_bytes out.new ≡ string_bytes out.old ++ states_apart clients.0 clients.1 left.now right.now) }
{
    if left.turn != right.turn {
        return Ok(());
    }
    match difference(left, right) {
        None => Ok(()),
        Some(place) => push_apart(clients.0, clients.1, &place, out),
    }
}
