//! How what a run came to is put where C wants it: its text and the file that it wrote, both or none.

ghost use Rattle.sim_c.specs.GivesRun.{fit, GivesRun, papers, put_if, run_status};
ghost use Rattle.std.specs.Prelude.{◌≡◌};

use crate::status::{NO_MEMORY, NO_ROOM};
use sim_embed::put;
use sim_packed::{Printed, Unrun};

/// The bytes are no files.
const FILES_REFUSED: i32 = 106;

/// Gives the text of a run, and what is held under the name of OUT.
pub fn give_run(
    answer: Result<Printed, Unrun>,
    text: &mut [u8],
    text_written: &mut u64,
    out: &mut [u8],
    out_written: &mut u64,
) -> i32
    ensures { GivesRun result (papers text.old text_written.old out.old out_written.old)
        (papers text.new text_written.new out.new out_written.new) answer }
{
    match answer {
        Ok(printed) => {
            *text_written = printed.text.len() as u64;
            *out_written = printed.out.len() as u64;
            give_both(&printed, text, out)
        }
        Err(Unrun::Files) => FILES_REFUSED,
        Err(Unrun::OutOfMemory) => NO_MEMORY,
    }
}

// Puts the text and the file into their rooms, where both fit.
fn give_both(printed: &Printed, text: &mut [u8], out: &mut [u8]) -> i32
    ensures status { result ≡ run_status printed.now text.old out.old }
    ensures text { text.new ≡ put_if (fit printed.now text.old out.old) printed.now.text.items text.old }
    ensures out { out.new ≡ put_if (fit printed.now text.old out.old) printed.now.out.items out.old }
{
    if text.len() < printed.text.len() || out.len() < printed.out.len() {
        return NO_ROOM;
    }
    let _text_fits = put(&printed.text, text);
    let _out_fits = put(&printed.out, out);
    i32::from(printed.status.number())
}
