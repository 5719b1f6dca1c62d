//! The lines of the territories of a match: what each player holds of the ground, and a digest that stands for who holds which
//! cell.

ghost use Rattle.sim_report.specs.{Appending.Appends, Appending.AppendsInParts, Lines.holding_line, Lines.map_line, Lines.spaced_number};
ghost use Rattle.std.specs.Prelude.{◌++◌};

use crate::line::{append_digest, append_number};
use sim_base::OutOfMemory;

/// Appends how many cells a player holds and how many of these are rooted, or leaves the text as it was.
pub fn push_holding(
    player: u8,
    held: usize,
    rooted: usize,
    out: &mut String,
) -> Result<(), OutOfMemory>
    ensures { Appends result out.old out.new (holding_line player held rooted) }
{
    let before = out.len();
    match append_holding(player, held, rooted, out) {
        Ok(()) => Ok(()),
        Err(stop) => {
            out.truncate(before);
            Err(stop)
        }
    }
}

fn append_holding(
    player: u8,
    held: usize,
    rooted: usize,
    out: &mut String,
) -> Result<(), OutOfMemory>
    ensures { AppendsInParts result out.old out.new (holding_line player held rooted) }
{
    append_count("realm", u64::from(player), out)?;
    append_count(" held", held as u64, out)?;
    append_count(" rooted", rooted as u64, out)?;
    out.push_str("\n")?;
    Ok(())
}

// Appends a word, a space and a number.
fn append_count(word: &str, number: u64, out: &mut String) -> Result<(), OutOfMemory>
    ensures { AppendsInParts result out.old out.new (word.now ++ spaced_number number) }
{
    out.push_str(word)?;
    append_number(number, out)
}

/// Appends the digest of the holders of all cells, or leaves the text as it was.
pub fn push_map(digest: &[u8; 16], out: &mut String) -> Result<(), OutOfMemory>
    ensures { Appends result out.old out.new (map_line digest.now) }
{
    let before = out.len();
    match append_map(digest, out) {
        Ok(()) => Ok(()),
        Err(stop) => {
            out.truncate(before);
            Err(stop)
        }
    }
}

fn append_map(digest: &[u8; 16], out: &mut String) -> Result<(), OutOfMemory>
    ensures { AppendsInParts result out.old out.new (map_line digest.now) }
{
    out.push_str("map")?;
    append_digest(digest, out)
}
