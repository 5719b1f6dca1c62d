//! One deed of the list: its turn, its player, its word and what follows it.

ghost use Rattle.{serde_json.specs.View.view, sim_json.specs.Values.{front_two as front_two_of, list_of as list_of_data}};
ghost use Rattle.sim_stock.specs.Economies.{barter_from as barter_from_data, dated_of as dated_of_data, deed_by as deed_by_word, deed_in as deed_in_data};
ghost use Rattle.sim_stock.specs.{Economies.{good_of as good_of_data, IsAmountUpTo, IsDated, IsDeedBy, tribute_from as tribute_from_data}, Meets.Finds};
ghost use Rattle.std.specs.Prelude.{IfSome, map, option_and_then, option_map, ◌≡◌, ◌≤◌};

use crate::deed::{DatedDeed, Deed};
use serde_json::Value;
use sim_json::{front_two, list_of, natural_in, two};

// The greatest amount of a deed.
const MOST: u64 = 1_000_000_000;

/// A deed of one of so many players, in a turn from the earliest to the last, or None where the item is none.
#[tactic(auto, unfolding(crate::specs::Economies::dated_of))]
pub fn dated_of(players: u8, turns: u32, earliest: u32, item: &Value) -> Option<DatedDeed>
    ensures value { result ≡ dated_of_data players turns earliest (view item.now) }
    ensures limits { IfSome result (IsDated players turns) }
    ensures later { IfSome result (λ dated. earliest ≤ dated.turn) }
{
    let (turn, player, rest) = parts_of(item)?;
    let turn = natural_in(turn, u64::from(earliest), u64::from(turns))? as u32;
    let player = natural_in(player, 1, u64::from(players))? as u8;
    let deed = deed_in(players, player, rest)?;
    Some(DatedDeed { turn, player, deed })
}

fn parts_of(item: &Value) -> Option<(&Value, &Value, &[Value])>
    ensures { option_map (λ p. (view p.0.now, view p.1.now, map view p.2.now)) result ≡ option_and_then front_two_of (list_of_data (view item.now)) }
{
    front_two(list_of(item)?)
}

fn deed_in(players: u8, player: u8, items: &[Value]) -> Option<Deed>
    ensures { Finds result (deed_in_data players player (map view items.now)) (IsDeedBy players player) }
{
    let [word, rest @ ..] = items else {
        return None;
    };
    deed_by(players, player, word.as_str()?, rest)
}

fn deed_by(players: u8, player: u8, word: &str, rest: &[Value]) -> Option<Deed>
    ensures { Finds result (deed_by_word players player word.now (map view rest.now)) (IsDeedBy players player) }
{
    if word == "tribute" {
        return tribute_from(players, player, rest);
    }
    if word == "barter" {
        return barter_from(players, player, rest);
    }
    None
}

fn tribute_from(players: u8, player: u8, items: &[Value]) -> Option<Deed>
    ensures { Finds result (tribute_from_data players player (map view items.now)) (IsDeedBy players player) }
{
    let [other, rest @ ..] = items else {
        return None;
    };
    let other = natural_in(other, 1, u64::from(players))? as u8;
    if other == player {
        return None;
    }
    let (good, amount) = good_of(rest)?;
    Some(Deed::Tribute {
        other,
        good,
        amount,
    })
}

fn barter_from(players: u8, player: u8, items: &[Value]) -> Option<Deed>
    ensures { Finds result (barter_from_data (map view items.now)) (IsDeedBy players player) }
{
    let (good, amount) = good_of(items)?;
    Some(Deed::Barter { good, amount })
}

// A good and an amount of it.
fn good_of(items: &[Value]) -> Option<(u8, u64)>
    ensures { Finds result (good_of_data (map view items.now)) (λ p. IsAmountUpTo 1000000000 p.0 p.1) }
{
    let (good, amount) = two(items)?;
    let good = natural_in(good, 0, 1)? as u8;
    let amount = natural_in(amount, 0, MOST)?;
    Some((good, amount))
}
