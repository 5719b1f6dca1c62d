//! The texts of one piece: how the program is called, and the lines that name a turn by its digest.

ghost use Rattle.std.specs.Prelude.{◌≡◌, length};
ghost use Rattle.sim_report.specs.Appending.{Appends, AppendsInParts};
ghost use Rattle.sim_report.specs.Lines.{line_end, report_kind as kind_of_report, saved_line, spaced_number, turn_line, usage_text};

use sim_base::{OutOfMemory, push_decimal};
use sim_bytes::push_hex;
use sim_codec::is_full_turn;

const USAGE: &str = "usage: simcore play MATCH
       simcore state MATCH TURN OUT
       simcore resume MATCH STATE
       simcore rejoin MATCH TURN
       simcore serve SCHEDULE
       simcore session MATCH STEPS
       simcore compare MATCH A B
       simcore show MATCH STATE
       simcore trial SEED UNITS TURNS
       simcore sight MATCH TURN OUT
       simcore resight MATCH STATE MAP
       simcore log MATCH OUT
       simcore record MATCH STEPS OUT
       simcore check MATCH LOG
       simcore stock MATCH ECONOMY
       simcore realm MATCH TURN
       simcore film MATCH EVERY
       simcore parts MATCH
       simcore live MATCH CLIENTS
       simcore relay CLIENTS ACTIVE DELAY TURNS
";

/// Appends how the program is called, or leaves the text as it was.
pub fn push_usage(out: &mut String) -> Result<(), OutOfMemory>
    ensures { Appends result out.old out.new usage_text }
{
    out.push_str(USAGE)?;
    Ok(())
}

/// Whether a report of a turn carries a whole or a quick digest, behind a space.
pub fn report_kind(turn: u32) -> &'static str
    ensures { result.now ≡ kind_of_report turn }
{
    if is_full_turn(turn) {
        " full"
    } else {
        " quick"
    }
}

/// Appends the line of a turn that a command's word, as `turn` or `first`, stands before, or leaves the text as it was.
pub fn push_turn(
    word: &str,
    turn: u32,
    digest: &[u8; 16],
    out: &mut String,
) -> Result<(), OutOfMemory>
    ensures { Appends result out.old out.new (turn_line word.now turn digest.now) }
{
    let length = out.len();
    match append_turn(word, turn, digest, out) {
        Ok(()) => Ok(()),
        Err(stop) => {
            out.truncate(length);
            Err(stop)
        }
    }
}

/// Appends the line of a turn. After an error a part of it may stand behind the old text, here and below.
pub fn append_turn(
    word: &str,
    turn: u32,
    digest: &[u8; 16],
    out: &mut String,
) -> Result<(), OutOfMemory>
    ensures { AppendsInParts result out.old out.new (turn_line word.now turn digest.now) }
{
    out.push_str(word)?;
    append_number(u64::from(turn), out)?;
    append_digest(digest, out)
}

/// Appends a space and a number.
pub fn append_number(number: u64, out: &mut String) -> Result<(), OutOfMemory>
    ensures { AppendsInParts result out.old out.new (spaced_number number) }
{
    out.push_str(" ")?;
    push_decimal(number, out)
}

/// Appends a space, a digest, and the end of a line.
pub fn append_digest(digest: &[u8; 16], out: &mut String) -> Result<(), OutOfMemory>
    ensures { AppendsInParts result out.old out.new (line_end digest.now) }
{
    out.push_str(" ")?;
    push_hex(out, digest.as_slice())?;
    out.push_str("\n")?;
    Ok(())
}

/// Appends the line of a state that was stored in so many bytes, or leaves the text as it was.
pub fn push_saved(
    turn: u32,
    length: usize,
    digest: &[u8; 16],
    out: &mut String,
) -> Result<(), OutOfMemory>
    ensures { Appends result out.old out.new (saved_line turn length digest.now) }
{
    let before = out.len();
    match append_saved(turn, length, digest, out) {
        Ok(()) => Ok(()),
        Err(stop) => {
            out.truncate(before);
            Err(stop)
        }
    }
}

fn append_saved(
    turn: u32,
    size: usize,
    digest: &[u8; 16],
    out: &mut String,
) -> Result<(), OutOfMemory>
    ensures { AppendsInParts result out.old out.new (saved_line turn size digest.now) }
{
    out.push_str("state")?;
    append_number(u64::from(turn), out)?;
    append_number(size as u64, out)?;
    append_digest(digest, out)
}
