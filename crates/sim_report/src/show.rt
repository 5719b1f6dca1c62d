//! A state as text: a line of its clock, and a line of each row with the parts that the row has.

ghost use Rattle.{sim_base.specs.NumberText.text_of, sim_report.specs.Appending.Appends, sim_report.specs.Appending.AppendsInParts};
ghost use Rattle.sim_report.specs.Show.{attack_text, clock_line, HasTemplate, health_text, hold_text, motion_text, point_text, row_head, row_line, show_text};
ghost use Rattle.std.specs.Prelude.{◌++◌, ◌≡◌, All, OnOk, string_bytes};

use sim_base::{Aim, Fixed, Motion, OutOfMemory, Point, Row, Setup, State};

/// Appends what a match has come to, its entities ascending by id as the state has them, or leaves the text as it was.
pub fn push_show(setup: &Setup, state: &State, out: &mut String) -> Result<(), OutOfMemory>
    requires { All (HasTemplate setup.now) state.now.rows }
    ensures { Appends result out.old out.new (show_text setup.now state.now) }
{
    let length = out.len();
    match push_lines(setup, state, out) {
        Ok(()) => Ok(()),
        Err(stop) => {
            out.truncate(length);
            Err(stop)
        }
    }
}

// After an error some of the lines may stand behind the old text.
fn push_lines(setup: &Setup, state: &State, out: &mut String) -> Result<(), OutOfMemory>
    requires { All (HasTemplate setup.now) state.now.rows }
    ensures { AppendsInParts result out.old out.new (show_text setup.now state.now) }
{
    push_clock(state, out)?;
    let mut line = String::new(*out.allocator());
    for row in state.rows.as_slice() {
        push_row(setup, row, &mut line, out)?;
    }
    Ok(())
}

fn push_clock(state: &State, out: &mut String) -> Result<(), OutOfMemory>
    ensures { Appends result out.old out.new (clock_line state.now) }
{
    let rows = state.rows.as_slice().len();
    let mut line = String::new(*out.allocator());
    writeln!(
        line,
        "turn {} next {} word {} rows {rows}",
        state.turn, state.next, state.word
    )?;
    out.push_str(line.as_str())?;
    Ok(())
}

// Appends the line of a row, which is made in the room of the line before it.
fn push_row(
    setup: &Setup,
    row: &Row,
    line: &mut String,
    out: &mut String,
) -> Result<(), OutOfMemory>
    requires { HasTemplate setup.now row.now }
    ensures { Appends result out.old out.new (row_line setup.now row.now) }
{
    line.clear();
    write_row(setup, row, line)?;
    out.push_str(line.as_str())?;
    Ok(())
}

// A row's line is written as a text of its own, of which nothing is said after an error, here and below.
fn write_row(setup: &Setup, row: &Row, line: &mut String) -> Result<(), OutOfMemory>
    requires { HasTemplate setup.now row.now }
    ensures { OnOk result (string_bytes line.new ≡ string_bytes line.old ++ row_line setup.now row.now) }
{
    write_head(setup, row, line)?;
    write_point(row.at, line)?;
    write_health(row.health, line)?;
    write_motion(&row.motion, line)?;
    write_attack(row.attack, line)?;
    line.push_str("\n")?;
    Ok(())
}

fn write_head(setup: &Setup, row: &Row, line: &mut String) -> Result<(), OutOfMemory>
    requires { HasTemplate setup.now row.now }
    ensures { OnOk result (string_bytes line.new ≡ string_bytes line.old ++ row_head setup.now row.now) }
{
    let template = &setup.templates.as_slice()[usize::from(row.template)];
    let name = template.name.text();
    write!(
        line,
        "entity {} template {name} owner {} at ",
        row.id, row.owner
    )?;
    Ok(())
}

/// Appends both coordinates. After an error a part of them may stand behind the old text.
pub fn write_point(point: Point, line: &mut String) -> Result<(), OutOfMemory>
    ensures { AppendsInParts result line.old line.new (point_text point) }
{
    write_fixed("", point.x, line)?;
    write_fixed(" ", point.z, line)
}

/// Appends a word and a number with a fraction. After an error a part of them may stand behind the old text.
pub fn write_fixed(word: &str, number: Fixed, line: &mut String) -> Result<(), OutOfMemory>
    ensures { AppendsInParts result line.old line.new (word.now ++ text_of number) }
{
    line.push_str(word)?;
    number.push_text(line)
}

fn write_health(health: Option<Fixed>, line: &mut String) -> Result<(), OutOfMemory>
    ensures { OnOk result (string_bytes line.new ≡ string_bytes line.old ++ health_text health) }
{
    if let Some(health) = health {
        line.push_str(" health ")?;
        health.push_text(line)?;
    }
    Ok(())
}

fn write_motion(motion: &Option<Motion>, line: &mut String) -> Result<(), OutOfMemory>
    ensures { OnOk result (string_bytes line.new ≡ string_bytes line.old ++ motion_text motion.now) }
{
    match motion {
        None => {}
        Some(Motion::Still) => line.push_str(" motion still")?,
        Some(Motion::Going { goal, way, whole }) => {
            line.push_str(" motion going ")?;
            write_point(*goal, line)?;
            write!(
                line,
                " way {} whole {}",
                way.as_slice().len(),
                u8::from(*whole)
            )?;
        }
    }
    Ok(())
}

fn write_attack(attack: Option<Aim>, line: &mut String) -> Result<(), OutOfMemory>
    ensures { OnOk result (string_bytes line.new ≡ string_bytes line.old ++ attack_text attack) }
{
    if let Some(aim) = attack {
        let hold = hold_word(aim.hold);
        write!(
            line,
            " attack target {} cooldown {}{hold}",
            aim.target, aim.cooldown
        )?;
    }
    Ok(())
}

// What is said of who holds its place.
fn hold_word(hold: bool) -> &'static str
    ensures { result.now ≡ hold_text hold }
{
    if hold { " hold" } else { "" }
}
