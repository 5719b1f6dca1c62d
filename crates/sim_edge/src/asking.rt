//! The words of a talk, and how long a line of it may be.

ghost use Rattle.std.specs.Prelude.{◌≡◌, ◌≤◌, IfSome, option_map};
ghost use Rattle.sim_edge.specs.{Talked.AsksFor, Talked.IsTalk, Words.asked_of_four, Words.asked_of_two, Words.most_in, Words.number_in, Words.talk_by};
ghost use Rattle.{sim_edge.specs.Words.talk_of, sim_top.specs.Words.words_of};

use sim_live::RelayRules;
use sim_top::turn_of;

/// How many bytes a line of a session may have: 1 MiB.
pub const MAX_LINE: usize = 1_048_576;

/// How many bytes a line of a server may have: 5 MiB. The longest frame has 2,400,000 bytes, and each is two digits.
pub const MAX_RELAY_LINE: usize = 5_242_880;

/// What the words of a talk ask for.
#[derive(Clone, Copy, Debug, PartialEq, Eq)]
pub enum Asked<'w> {
    /// A session of the match of a file, that begins with so many clients.
    Live { game: &'w str, clients: u8 },
    /// The server.
    Relay { rules: RelayRules },
}

/// The talk that the words ask for, if they ask for one.
pub fn asked_of(words: &[String]) -> Option<Asked<'_>>
    ensures asked { option_map talk_of result ≡ talk_by (words_of words.now) }
    ensures limits { IfSome result (λ asked. IsTalk (talk_of asked)) }
{
    if let [command, game, clients] = words {
        return live_of(command.as_str(), game.as_str(), clients.as_str());
    }
    if let [command, clients, active, delay, turns] = words {
        return relay_of(
            command.as_str(),
            clients.as_str(),
            active.as_str(),
            delay.as_str(),
            turns.as_str(),
        );
    }
    None
}

fn live_of<'w>(command: &str, game: &'w str, clients: &str) -> Option<Asked<'w>>
    ensures { AsksFor (asked_of_two command.now game.now clients.now) result }
{
    if command != "live" {
        return None;
    }
    let clients = number_of(clients, 1, 8)? as u8;
    Some(Asked::Live { game, clients })
}

fn relay_of<'w>(
    command: &str,
    clients: &str,
    active: &str,
    delay: &str,
    turns: &str,
) -> Option<Asked<'w>>
    ensures { AsksFor (asked_of_four command.now clients.now active.now delay.now turns.now) result }
{
    if command != "relay" {
        return None;
    }
    let clients = number_of(clients, 1, 8)?;
    let active = number_of(active, 0, clients)?;
    let delay = number_of(delay, 1, 8)?;
    let turns = number_of(turns, 0, 65_535)?;
    Some(Asked::Relay {
        rules: RelayRules {
            clients: clients as u8,
            active: active as u8,
            delay: delay as u8,
            turns,
        },
    })
}

/// How many bytes a line of that talk may have.
pub fn most_of(asked: &Asked<'_>) -> usize
    ensures { result ≡ most_in (talk_of asked.now) }
{
    match asked {
        Asked::Live { .. } => MAX_LINE,
        Asked::Relay { .. } => MAX_RELAY_LINE,
    }
}

// The number within these limits that a word of one to nine digits is.
fn number_of(word: &str, low: u32, high: u32) -> Option<u32>
    ensures number { result ≡ number_in low high word.now }
    ensures limits { IfSome result (λ n. (low ≤ n) × (n ≤ high)) }
{
    let number = turn_of(word)?;
    if low <= number && number <= high {
        Some(number)
    } else {
        None
    }
}
