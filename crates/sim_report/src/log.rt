//! The lines about logs of a match.

ghost use Rattle.sim_report.specs.{Appending.{Appends, AppendsInParts}, Lines.{agree_line, apart_line, apart_lines, logged_line, named_line}};

use crate::line::{append_digest, append_number};
use sim_base::OutOfMemory;

/// Appends the line of a log that was stored, behind the word that asked for it: how many turns it has, and how many bytes; or
/// leaves the text as it was.
pub fn push_logged(
    word: &str,
    turns: usize,
    size: usize,
    out: &mut String,
) -> Result<(), OutOfMemory>
    ensures { Appends result out.old out.new (logged_line word.now turns size) }
{
    let before = out.len();
    match append_logged(word, turns, size, out) {
        Ok(()) => Ok(()),
        Err(stop) => {
            out.truncate(before);
            Err(stop)
        }
    }
}

// After an error a part of the line may stand behind the old text, here and below.
fn append_logged(word: &str, turns: usize, size: usize, out: &mut String) -> Result<(), OutOfMemory>
    ensures { AppendsInParts result out.old out.new (logged_line word.now turns size) }
{
    out.push_str(word)?;
    append_number(turns as u64, out)?;
    append_number(size as u64, out)?;
    out.push_str("\n")?;
    Ok(())
}

/// Appends that a log agrees up to its last turn, or leaves the text as it was.
pub fn push_agree(turn: usize, out: &mut String) -> Result<(), OutOfMemory>
    ensures { Appends result out.old out.new (agree_line turn) }
{
    let before = out.len();
    match append_agree(turn, out) {
        Ok(()) => Ok(()),
        Err(stop) => {
            out.truncate(before);
            Err(stop)
        }
    }
}

fn append_agree(turn: usize, out: &mut String) -> Result<(), OutOfMemory>
    ensures { AppendsInParts result out.old out.new (agree_line turn) }
{
    out.push_str("agree")?;
    append_number(turn as u64, out)?;
    out.push_str("\n")?;
    Ok(())
}

/// Appends the first turn at which a log does not agree, with its digest there and the one that was played, or leaves the text as
/// it was.
pub fn push_apart(
    turn: u32,
    told: &[u8; 16],
    played: &[u8; 16],
    out: &mut String,
) -> Result<(), OutOfMemory>
    ensures { Appends result out.old out.new (apart_lines turn told.now played.now) }
{
    let before = out.len();
    match append_apart(turn, told, played, out) {
        Ok(()) => Ok(()),
        Err(stop) => {
            out.truncate(before);
            Err(stop)
        }
    }
}

fn append_apart(
    turn: u32,
    told: &[u8; 16],
    played: &[u8; 16],
    out: &mut String,
) -> Result<(), OutOfMemory>
    ensures { AppendsInParts result out.old out.new (apart_lines turn told.now played.now) }
{
    append_turn_line(turn, out)?;
    append_named("log", told, out)?;
    append_named("play", played, out)
}

fn append_turn_line(turn: u32, out: &mut String) -> Result<(), OutOfMemory>
    ensures { AppendsInParts result out.old out.new (apart_line turn) }
{
    out.push_str("differ turn")?;
    append_number(u64::from(turn), out)?;
    out.push_str("\n")?;
    Ok(())
}

// A digest behind a word.
fn append_named(word: &str, digest: &[u8; 16], out: &mut String) -> Result<(), OutOfMemory>
    ensures { AppendsInParts result out.old out.new (named_line word.now digest.now) }
{
    out.push_str(word)?;
    append_digest(digest, out)
}
