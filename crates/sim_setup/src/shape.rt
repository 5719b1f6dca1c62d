//! Code 2: whether a file is an object with exactly the ten keys of a match, each with a value of its kind.

ghost use Rattle.std.specs.Prelude.{◌≡◌};
ghost use Rattle.sim_setup.specs.{Common.view, Setups.misplaced as misplaced_in};

use serde_json::Value;
use sim_json::{has_list, has_row, has_table, has_table_of, has_whole, other_key};

const KEYS: [&str; 10] = [
    "size",
    "closed",
    "players",
    "cap",
    "delay",
    "turns",
    "seed",
    "templates",
    "entities",
    "commands",
];

/// The place of the first key that is missing or not of its kind, or 10 where there is another key.
pub fn misplaced(value: &Value) -> Option<u32>
    ensures { result ≡ misplaced_in (view value.now) }
{
    if !has_row(value, "size", 2) {
        return Some(0);
    }
    if !has_table_of(value, "closed", 4) {
        return Some(1);
    }
    if !has_table(value, "players") {
        return Some(2);
    }
    if !has_whole(value, "cap") {
        return Some(3);
    }
    if !has_whole(value, "delay") {
        return Some(4);
    }
    if !has_whole(value, "turns") {
        return Some(5);
    }
    if !has_whole(value, "seed") {
        return Some(6);
    }
    if !has_list(value, "templates") {
        return Some(7);
    }
    if !has_list(value, "entities") {
        return Some(8);
    }
    if !has_list(value, "commands") {
        return Some(9);
    }
    if other_key(value, &KEYS) {
        return Some(10);
    }
    None
}
