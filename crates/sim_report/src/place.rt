//! The place at which two states differ, as text: which part of which entity, and the bytes that each state has of it.

ghost use Rattle.sim_report.specs.{Appending.Appends, Places.bits_line, Places.part_name as name_of_part, Places.place_text};
ghost use Rattle.std.specs.Prelude.{◌++◌, ◌≡◌, OnOk, string_bytes};

use sim_base::OutOfMemory;
use sim_bytes::push_hex;
use sim_codec::{Bits, Part};
use sim_diff::Place;

/// Appends a place at which two states differ, with what the left and the right one have there, or leaves the text as
/// it was.
pub fn push_place(place: &Place, out: &mut String) -> Result<(), OutOfMemory>
    ensures { Appends result out.old out.new (place_text place.now) }
{
    let mut lines = String::new(*out.allocator());
    write_place(place, &mut lines)?;
    out.push_str(lines.as_str())?;
    Ok(())
}

// The lines are written as a text of their own, of which nothing is said after an error, here and below.
fn write_place(place: &Place, lines: &mut String) -> Result<(), OutOfMemory>
    ensures { OnOk result (string_bytes lines.new ≡ string_bytes lines.old ++ place_text place.now) }
{
    let part = part_name(place.part);
    writeln!(lines, "differ entity {} part {part}", place.entity)?;
    write_bits("left", &place.left, lines)?;
    write_bits("right", &place.right, lines)
}

/// The name of a part.
pub fn part_name(part: Part) -> &'static str
    ensures { result.now ≡ name_of_part part }
{
    match part {
        Part::Clock => "Clock",
        Part::Entity => "Entity",
        Part::Position => "Position",
        Part::Owner => "Owner",
        Part::Health => "Health",
        Part::Motion => "Motion",
        Part::Attack => "Attack",
        Part::Stance => "Stance",
    }
}

fn write_bits(side: &str, bits: &Bits, lines: &mut String) -> Result<(), OutOfMemory>
    ensures { OnOk result (string_bytes lines.new ≡ string_bytes lines.old ++ bits_line side.now bits.now) }
{
    match bits.bytes() {
        None => writeln!(lines, "{side} absent")?,
        Some(bytes) => {
            write!(lines, "{side} ")?;
            push_hex(lines, bytes)?;
            lines.push_str("\n")?;
        }
    }
    Ok(())
}
