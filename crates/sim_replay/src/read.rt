//! A whole log, read: the line that names the match first, and then line by line.

ghost use Rattle.sim_replay.specs.declared.log.Log.{Log};
ghost use Rattle.sim_replay.specs.{Logs.{IsFirstLine, IsLog, IsRefusedAt, log_of as log_of_bytes, nothing, parts_of, read_parts, text_of_log}, Meets.Meets};
ghost use Rattle.std.specs.{List.position, Prelude.{IfOk, MatchOption, ℕ, [], ◌<◌, ◌==◌, ◌^◌, ◌∷◌, ◌≡◌}};

use crate::fault::{LogFault, refused};
use crate::log::Log;
use crate::reading::Reading;
use crate::spelled::is_header;
use sim_base::{Global, Setup};

/// The one log of the match that these bytes are, or the number of the first line, counted from 1, with which no log of
/// the match goes on.
pub fn log_of(alloc: Global, setup: &Setup, bytes: &[u8]) -> Result<Log, LogFault>
    ensures ok { IfOk result (λ log. IsLog setup.now log × (bytes.now ≡ text_of_log setup.now log)) }
    ensures itself { (log : Log) → IsLog setup.now log → bytes.now ≡ text_of_log setup.now log → IfOk result (λ read. read ≡ log) }
    ensures refused { (line : ℕ) → result ≡ Err (LogFault.Refused line) → IsRefusedAt setup.now bytes.now line }
    ensures early { parts_of bytes.now ≡ bytes.now ∷ [] → result ≡ Err (LogFault.Refused 1) }
{
    numbers_fit(setup);
    read_log(alloc, setup, bytes)
}

// The numbers of a match are those of its fields, so that each turn and each player of a log can be told.
fn numbers_fit(setup: &Setup)
    ensures players { setup.now.players < 2 ^ 8 }
    ensures turns { setup.now.turns < 2 ^ 32 }
{
    let (_players, _turns) = (setup.players, setup.turns);
}

fn read_log(alloc: Global, setup: &Setup, bytes: &[u8]) -> Result<Log, LogFault>
    ensures meets { Meets result (log_of_bytes setup.now bytes.now) }
    ensures early { parts_of bytes.now ≡ bytes.now ∷ [] → result ≡ Err (LogFault.Refused 1) }
{
    let Some((line, rest)) = first_line(bytes) else {
        return Err(LogFault::Refused { line: 1 });
    };
    if is_header(alloc, setup, line)? {
        lines_of(alloc, setup, rest)
    } else {
        Err(LogFault::Refused { line: 1 })
    }
}

// The log of the lines behind the first one.
fn lines_of(alloc: Global, setup: &Setup, bytes: &[u8]) -> Result<Log, LogFault>
    ensures { Meets result (read_parts setup.now nothing 2 (parts_of bytes.now)) }
{
    let mut read = Reading::new(alloc);
    let mut number = 2;
    let mut rest = bytes;
    while let Some((line, more)) = first_line(rest) {
        match read.after(alloc, setup, line)? {
            Some(next) => read = next,
            None => return Err(refused(number)),
        }
        number += 1;
        rest = more;
    }
    if !rest.is_empty() {
        return Err(refused(number));
    }
    read.into_log().ok_or(refused(number))
}

// What stands before the first line feed, and what stands behind it.
fn first_line(bytes: &[u8]) -> Option<(&[u8], &[u8])>
    ensures { MatchOption result (parts_of bytes.now ≡ bytes.now ∷ []) (λ p. IsFirstLine bytes.now p.0.now p.1.now) }
{
    match line_end(bytes) {
        Some(at) => Some((&bytes[..at], &bytes[at + 1..])),
        None => None,
    }
}

// The place of the first line feed.
fn line_end(bytes: &[u8]) -> Option<usize>
    ensures { result ≡ position (λ c. c == 10) bytes.now }
{
    bytes.iter().position(|c| *c == b'\n')
}
