//! Lines that only look: a word, and the client that it is about.

ghost use Rattle.{serde_json.specs.View.view, sim_live.specs.Looks.bare_look as bare_look_of};
ghost use Rattle.sim_live.specs.{Looks.IsLook, Looks.look_at as look_at_word, Looks.look_in as look_in_data, Looks.look_of as look_of_data, Reading.Finds};
ghost use Rattle.std.specs.Prelude.{◌≡◌, map};

use serde_json::Value;
use sim_json::{list_of, natural_in};

/// What a line asks to be shown.
#[derive(Clone, Copy, Debug, PartialEq, Eq)]
pub enum Look {
    /// The turn and the digest of a client.
    Digest { client: u8 },
    /// The state of a client, row by row.
    Show { client: u8 },
    /// The bytes of the state of a client.
    State { client: u8 },
    /// What lies in the pipes.
    Pipes,
    /// What the server has released and keeps.
    Kept,
}

/// A look at one of so many players, or None where the item is none.
pub fn look_of(players: u8, item: &Value) -> Option<Look>
    ensures { Finds (IsLook players) (look_of_data players (view item.now)) result }
{
    look_in(players, list_of(item)?)
}

fn look_in(players: u8, items: &[Value]) -> Option<Look>
    ensures { Finds (IsLook players) (look_in_data players (map view items.now)) result }
{
    match items {
        [word] => bare_look(word.as_str()?),
        [word, client] => look_at(players, word.as_str()?, client),
        [word, client, name] => {
            let word = word.as_str()?;
            let _name = name.as_str()?;
            if word != "state" {
                return None;
            }
            look_at(players, word, client)
        }
        _ => None,
    }
}

// A look at the server or at the pipes.
fn bare_look(word: &str) -> Option<Look>
    ensures look { result ≡ bare_look_of word.now }
{
    if word == "pipes" {
        return Some(Look::Pipes);
    }
    if word == "kept" {
        return Some(Look::Kept);
    }
    None
}

// A look at a client.
fn look_at(players: u8, word: &str, client: &Value) -> Option<Look>
    ensures { Finds (IsLook players) (look_at_word players word.now (view client.now)) result }
{
    let client = natural_in(client, 1, u64::from(players))? as u8;
    if word == "digest" {
        return Some(Look::Digest { client });
    }
    if word == "show" {
        return Some(Look::Show { client });
    }
    if word == "state" {
        return Some(Look::State { client });
    }
    None
}
