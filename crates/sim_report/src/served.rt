//! The lines of a server: what it tells whom, and what it has come to.

ghost use Rattle.sim_report.specs.{Appending.Appends, Appending.AppendsInParts, Downs.kept_line, Downs.post_line, Downs.released_line};

use crate::down::{append_down, append_number};
use sim_base::OutOfMemory;
use sim_plain::PostOf;
use sim_wire::Bytes;

/// Appends the line of a message and of the client who gets it, or leaves the text as it was.
pub fn push_post(post: &PostOf<Bytes>, out: &mut String) -> Result<(), OutOfMemory>
    ensures { Appends result out.old out.new (post_line post.now) }
{
    let length = out.len();
    match append_post(post, out) {
        Ok(()) => Ok(()),
        Err(stop) => {
            out.truncate(length);
            Err(stop)
        }
    }
}

// After an error a part of the line may stand behind the old text, here and below.
fn append_post(post: &PostOf<Bytes>, out: &mut String) -> Result<(), OutOfMemory>
    ensures { AppendsInParts result out.old out.new (post_line post.now) }
{
    append_number("to ", u64::from(post.to), out)?;
    out.push_str(" ")?;
    append_down(&post.down, out)?;
    out.push_str("\n")?;
    Ok(())
}

/// Appends the line of the turns that are released, or leaves the text as it was.
pub fn push_released(released: u32, out: &mut String) -> Result<(), OutOfMemory>
    ensures { Appends result out.old out.new (released_line released) }
{
    let length = out.len();
    match append_released(released, out) {
        Ok(()) => Ok(()),
        Err(stop) => {
            out.truncate(length);
            Err(stop)
        }
    }
}

fn append_released(released: u32, out: &mut String) -> Result<(), OutOfMemory>
    ensures { AppendsInParts result out.old out.new (released_line released) }
{
    append_number("released ", u64::from(released), out)?;
    out.push_str("\n")?;
    Ok(())
}

/// Appends the line of a turn of which so many commands are kept, or leaves the text as it was.
pub fn push_kept(turn: u32, count: usize, out: &mut String) -> Result<(), OutOfMemory>
    ensures { Appends result out.old out.new (kept_line turn count) }
{
    let length = out.len();
    match append_kept(turn, count, out) {
        Ok(()) => Ok(()),
        Err(stop) => {
            out.truncate(length);
            Err(stop)
        }
    }
}

fn append_kept(turn: u32, count: usize, out: &mut String) -> Result<(), OutOfMemory>
    ensures { AppendsInParts result out.old out.new (kept_line turn count) }
{
    append_number("kept ", u64::from(turn), out)?;
    append_number(" ", count as u64, out)?;
    out.push_str("\n")?;
    Ok(())
}
