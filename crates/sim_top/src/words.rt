//! The words after the program's name, and the request that they make. A word that is out of place makes none.

ghost use Rattle.std.specs.Prelude.{◌≡◌, ◌≤◌, length, IfSome, Some};
ghost use Rattle.sim_top.specs.{Trials.AsksFor, Words.digits_from, Words.every_in, Words.trial_of as trial_asked, Words.turn_in, Words.words_of};
ghost use Rattle.sim_top.specs.Words.{asked_by, asked_of_log, asked_of_one, asked_of_sight, asked_of_three, asked_of_two};

use sim_trial::is_trial;

/// What the words ask for, with the names of files as they were given.
#[derive(Clone, Copy, Debug, PartialEq, Eq)]
pub enum Request<'w> {
    /// To play a match.
    Play {
        game: &'w str,
    },
    /// To store the state of a turn of a match in a file.
    State {
        game: &'w str,
        turn: u32,
        out: &'w str,
    },
    /// To play a match on from a stored state.
    Resume {
        game: &'w str,
        stored: &'w str,
    },
    /// To play a match, which a second client joins at a turn.
    Rejoin {
        game: &'w str,
        turn: u32,
    },
    /// To run a session of a match over a list of steps.
    Session {
        game: &'w str,
        steps: &'w str,
    },
    /// To show a stored state of a match.
    Show {
        game: &'w str,
        stored: &'w str,
    },
    /// To compare two stored states of a match.
    Compare {
        game: &'w str,
        left: &'w str,
        right: &'w str,
    },
    /// To run the server over a schedule.
    Serve {
        schedule: &'w str,
    },
    /// To play a trial of so many soldiers and turns.
    Trial {
        seed: u32,
        units: u32,
        turns: u32,
    },
    /// To play a match by the economy of a file.
    Stock {
        game: &'w str,
        economy: &'w str,
    },
    /// To tell the territories of a turn of a match.
    Realm {
        game: &'w str,
        turn: u32,
    },
    /// To tell what the players of a match see at a turn, and store in a file what they have explored.
    Sight {
        game: &'w str,
        turn: u32,
        out: &'w str,
    },
    /// To tell what the players of a match see in the end, from a stored state on and the explored cells of a file.
    Resight {
        game: &'w str,
        stored: &'w str,
        map: &'w str,
    },
    /// To store the log of a match in a file.
    Log {
        game: &'w str,
        out: &'w str,
    },
    /// To run a session of a match over a list of steps, and store the log of its released turns in a file.
    Record {
        game: &'w str,
        steps: &'w str,
        out: &'w str,
    },
    /// To check the log of a match.
    Check {
        game: &'w str,
        log: &'w str,
    },
    /// To tell the states of a match, at turns so many apart and at the last.
    Film {
        game: &'w str,
        every: u32,
    },
    /// To tell the parts of the templates of a match.
    Parts {
        game: &'w str,
    },
}

/// The request of the words, if they make one.
pub fn request_of(words: &[String]) -> Option<Request<'_>>
    ensures { AsksFor (asked_by (words_of words.now)) result }
{
    match words {
        [command, a] => request_of_one(command.as_str(), a.as_str()),
        [command, a, b] => request_of_two(command.as_str(), a.as_str(), b.as_str()),
        [command, a, b, c] => {
            request_of_three(command.as_str(), a.as_str(), b.as_str(), c.as_str())
        }
        _ => None,
    }
}

fn request_of_one<'w>(command: &str, file: &'w str) -> Option<Request<'w>>
    ensures { AsksFor (asked_of_one command.now file.now) result }
{
    if command == "play" {
        return Some(Request::Play { game: file });
    }
    if command == "serve" {
        return Some(Request::Serve { schedule: file });
    }
    if command == "parts" {
        return Some(Request::Parts { game: file });
    }
    None
}

fn request_of_two<'w>(command: &str, a: &'w str, b: &'w str) -> Option<Request<'w>>
    ensures { AsksFor (asked_of_two command.now a.now b.now) result }
{
    if command == "resume" {
        return Some(Request::Resume { game: a, stored: b });
    }
    if command == "rejoin" {
        let turn = turn_of(b)?;
        return Some(Request::Rejoin { game: a, turn });
    }
    if command == "session" {
        return Some(Request::Session { game: a, steps: b });
    }
    if command == "show" {
        return Some(Request::Show { game: a, stored: b });
    }
    if command == "stock" {
        return Some(Request::Stock {
            game: a,
            economy: b,
        });
    }
    if command == "realm" {
        let turn = turn_of(b)?;
        return Some(Request::Realm { game: a, turn });
    }
    if command == "film" {
        let every = every_of(b)?;
        return Some(Request::Film { game: a, every });
    }
    request_of_log(command, a, b)
}

// A request about a log.
fn request_of_log<'w>(command: &str, a: &'w str, b: &'w str) -> Option<Request<'w>>
    ensures { AsksFor (asked_of_log command.now a.now b.now) result }
{
    if command == "log" {
        return Some(Request::Log { game: a, out: b });
    }
    if command == "check" {
        return Some(Request::Check { game: a, log: b });
    }
    None
}

fn request_of_three<'w>(command: &str, a: &'w str, b: &'w str, c: &'w str) -> Option<Request<'w>>
    ensures { AsksFor (asked_of_three command.now a.now b.now c.now) result }
{
    if command == "state" {
        let turn = turn_of(b)?;
        return Some(Request::State {
            game: a,
            turn,
            out: c,
        });
    }
    if command == "compare" {
        return Some(Request::Compare {
            game: a,
            left: b,
            right: c,
        });
    }
    if command == "trial" {
        return trial_of(turn_of(a)?, turn_of(b)?, turn_of(c)?);
    }
    if command == "record" {
        return Some(Request::Record {
            game: a,
            steps: b,
            out: c,
        });
    }
    request_of_sight(command, a, b, c)
}

// A request about what the players see.
fn request_of_sight<'w>(command: &str, a: &'w str, b: &'w str, c: &'w str) -> Option<Request<'w>>
    ensures { AsksFor (asked_of_sight command.now a.now b.now c.now) result }
{
    if command == "sight" {
        let turn = turn_of(b)?;
        return Some(Request::Sight {
            game: a,
            turn,
            out: c,
        });
    }
    if command == "resight" {
        return Some(Request::Resight {
            game: a,
            stored: b,
            map: c,
        });
    }
    None
}

// The trial of these numbers, if they are within its limits.
fn trial_of<'w>(seed: u32, units: u32, turns: u32) -> Option<Request<'w>>
    ensures { AsksFor (trial_asked (Some seed) (Some units) (Some turns)) result }
{
    if is_trial(u64::from(seed), units, turns) {
        Some(Request::Trial { seed, units, turns })
    } else {
        None
    }
}

/// The turn that a word of one to nine digits is.
pub fn turn_of(word: &str) -> Option<u32>
    ensures { result ≡ turn_in word.now }
{
    let digits = word.as_bytes();
    if 1 <= digits.len() && digits.len() <= 9 {
        number_of(digits)
    } else {
        None
    }
}

// The number that such a word is, if it is not 0.
fn every_of(word: &str) -> Option<u32>
    ensures is { result ≡ every_in word.now }
    ensures least { IfSome result (λ every. 1 ≤ every) }
{
    let every = turn_of(word)?;
    if 1 <= every { Some(every) } else { None }
}

fn number_of(digits: &[u8]) -> Option<u32>
    requires { length digits.now ≤ 9 }
    ensures { result ≡ digits_from 0 digits.now }
{
    let mut number = 0u32;
    for digit in digits {
        if !digit.is_ascii_digit() {
            return None;
        }
        number = number * 10 + u32::from(*digit - b'0');
    }
    Some(number)
}
