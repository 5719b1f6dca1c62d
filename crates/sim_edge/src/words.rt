//! What the process is handed and what it ends with: the words of its command line, and its number.

ghost use Rattle.std.specs.{Prelude.◌≡◌, Prelude.drop, Prelude.IfOk, Prelude.IsOk, Prelude.IsErr, Vec.Iter.into_iter_items};
ghost use Rattle.sim_edge.specs.Process.{IsNoText, IsUnread, number_of, words_behind};

use sim_base::{Global, OutOfMemory};
use sim_top::Status;
use std::{env, io};

/// The words of a run: all of the command line's behind the first, which is the program's name. Where one of them is no text
/// there are none, which no command has either.
pub fn words_of(alloc: Global, arguments: io::Result<env::Args>) -> Result<Vec<String>, OutOfMemory>
    ensures words { IfOk result (λ words. words.items ≡ words_behind arguments) }
    ensures memory { IsUnread arguments → IsErr result }
    ensures no_text { IsNoText arguments → IsOk result }
{
    match arguments {
        Ok(arguments) => behind_name(alloc, arguments),
        Err(error) if error.kind() == io::ErrorKind::OutOfMemory => Err(OutOfMemory),
        Err(_) => Ok(Vec::new(alloc)),
    }
}

// All words but the first, which is the program's name.
fn behind_name(alloc: Global, mut arguments: env::Args) -> Result<Vec<String>, OutOfMemory>
    ensures { IfOk result (λ words. words.items ≡ drop 1 (into_iter_items arguments)) }
{
    let _name = arguments.next();
    let mut words = Vec::new(alloc);
    'words: while let Some(word) = arguments.next() {
        words.push(word)?;
    }
    Ok(words)
}

/// The number that the process ends with. Where there was no memory to begin a run, it is that of a run without memory.
pub fn exit_number(ended: Result<Status, OutOfMemory>) -> u8
    ensures { result ≡ number_of ended }
{
    ended.unwrap_or(Status::OutOfMemory).number()
}
