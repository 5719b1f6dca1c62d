//! Calls of the libraries that scripts time or try, where the program would add files and the reading of a match. Figures are
//! printed, and nothing is promised.
//!
//! | word | what is done |
//! |---|---|
//! | none | all searches find the same ways between random cells; nothing is printed, and the status is 1 where they differ |
//! | `ways` | what ways cost on grounds of several kinds |
//! | `board` | what changes of a board cost |
//! | `rows` | what a great stored state costs |
//! | `server` | what an arrival costs the server |
//! | `damage MATCH STATE..` | what stored states are answered with where one byte is changed |
#![tactic(auto)]

mod boards;
mod damage;
mod servers;
mod stored;
mod ways;

use std::process::ExitCode;
use std::{env, io};

fn main(rt: HostRuntime) -> ExitCode {
    match run(&rt) {
        Ok(true) => ExitCode::SUCCESS,
        _ => ExitCode::FAILURE,
    }
}

// Whether all went well.
fn run(rt: &HostRuntime) -> io::Result<bool> {
    let Ok(words) = env::args(rt)?.skip(1).collect::<Vec<String>>(rt.alloc()) else {
        return Ok(false);
    };
    let [word, files @ ..] = words.as_slice() else {
        return Ok(ways::agree(rt.alloc()).unwrap_or(false));
    };
    match word.as_str() {
        "ways" => ways::measure(rt)?,
        "board" => boards::measure(rt)?,
        "rows" => stored::measure(rt)?,
        "server" => servers::measure(rt)?,
        "damage" => damage::damage(rt, files)?,
        _ => return Ok(false),
    }
    Ok(true)
}
