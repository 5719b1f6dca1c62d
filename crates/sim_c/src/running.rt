//! Any command of the program as one call, which keeps nothing. Its clause is that of the run of `sim_packed`, and how what that came to is
//! put where C wants it.

ghost use Rattle.{sim_c.specs.GivesRun.{AnswersRun, GivesRun, papers}, sim_packed.specs.Files.{IsRun, IsUnrun}};

use crate::giving_run::give_run;
use std::alloc::Global;

/// A command of the program over files in memory.
#[unsafe(no_mangle)]
pub extern "C" fn simcore_run(
    alloc: Global,
    words: &[u8],
    files: &[u8],
    text: &mut [u8],
    text_written: &mut u64,
    out: &mut [u8],
    out_written: &mut u64,
) -> i32
    ensures { AnswersRun (IsRun words.now files.now) (IsUnrun files.now) (GivesRun result
        (papers text.old text_written.old out.old out_written.old) (papers text.new text_written.new out.new out_written.new)) }
{
    let answer = sim_packed::run(alloc, words, files);
    give_run(answer, text, text_written, out, out_written)
}
