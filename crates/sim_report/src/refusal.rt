//! Why something is refused, as a line of its own. The seven causes are one type, since a refused run of the program
//! prints one of them and no more.

ghost use Rattle.sim_report.specs.{Appending.Appends, Refusals.refusal_text};
ghost use Rattle.std.specs.Prelude.{◌++◌, ◌≡◌, OnOk, string_bytes};

use sim_base::OutOfMemory;

/// A cause for which the program refuses what it was given: a match file, at this index of what its code speaks of; a
/// stored state, in the file of this name; a list of steps or arrivals, at this index; a turn that the match lacks; the
/// explored cells of a file; a log, at this line; or an economy, at this index of its deeds.
#[derive(Clone, Copy, Debug, PartialEq, Eq)]
pub enum Refusal<'a> {
    Match { code: u8, index: u32 },
    Stored { code: u8, name: &'a str },
    List { index: u32 },
    Turn { asked: u32, turns: u32 },
    Sight { code: u8 },
    Log { line: u32 },
    Economy { index: u32 },
}

/// Appends the line of a refusal, or leaves the text as it was.
pub fn push_refusal(refusal: &Refusal, out: &mut String) -> Result<(), OutOfMemory>
    ensures { Appends result out.old out.new (refusal_text refusal.now) }
{
    let mut line = String::new(*out.allocator());
    write_refusal(refusal, &mut line)?;
    out.push_str(line.as_str())?;
    Ok(())
}

// The line is written as a text of its own, of which nothing is said after an error.
fn write_refusal(refusal: &Refusal, line: &mut String) -> Result<(), OutOfMemory>
    ensures { OnOk result (string_bytes line.new ≡ string_bytes line.old ++ refusal_text refusal.now) }
{
    match refusal {
        Refusal::Match { code, index } => writeln!(line, "match refused {code} {index}")?,
        Refusal::Stored { code, name } => writeln!(line, "state refused {code} {name}")?,
        Refusal::List { index } => writeln!(line, "list refused {index}")?,
        Refusal::Turn { asked, turns } => writeln!(line, "no turn {asked} of {turns}")?,
        Refusal::Sight { code } => writeln!(line, "sight refused {code}")?,
        Refusal::Log { line: number } => writeln!(line, "log refused {number}")?,
        Refusal::Economy { index } => writeln!(line, "economy refused {index}")?,
    }
    Ok(())
}
