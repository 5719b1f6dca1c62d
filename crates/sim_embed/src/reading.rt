//! What bytes stand for: a match, a state of it, and the commands of a turn.

ghost use Rattle.std.specs.{Prelude.All, Prelude.IfErr, Prelude.IfOk, Prelude.IfSome, Prelude.false, Prelude.map, Prelude.◌≡◌, Str.is_utf8};
ghost use Rattle.sim_embed.specs.Causes.{IsNoMatch, IsNoState, IsOrderFor, MeetsOrders, order_of as order_of_data, orders_from as orders_from_data};
ghost use Rattle.{serde_json.specs.View.view, sim_base.specs.Limits.IsSetup, sim_codec.specs.Loading.StandsFor, sim_embed.specs.Causes.TellsItem};
ghost use Rattle.{sim_embed.specs.Causes.orders_of as orders_of_bytes, sim_setup.specs.Setups.setup_of as setup_of_bytes};

use crate::Refused;
use serde_json::Value;
use sim_base::{Global, OutOfMemory, PlayerCommand, Setup, State};
use sim_codec::{StateFault, load};
use sim_json::{command_of, list_of, natural_in, value_of};
use sim_setup::{SetupFault, setup_of};

/// The match that bytes are.
pub fn match_of(alloc: Global, game: &[u8]) -> Result<Setup, Refused>
    ensures is { IfOk result (λ setup. setup_of_bytes game.now ≡ Ok setup) }
    ensures limits { IfOk result IsSetup }
    ensures refused { IfErr result (IsNoMatch game.now) }
{
    match setup_of(alloc, game) {
        Ok(setup) => Ok(setup),
        Err(SetupFault::Refused { code, index }) => Err(Refused::Match { code, index }),
        Err(SetupFault::OutOfMemory) => Err(Refused::OutOfMemory),
    }
}

/// The state of the match that bytes stand for. It is the one at this place among the states of a call.
pub fn state_of(alloc: Global, setup: &Setup, bytes: &[u8], place: u32) -> Result<State, Refused>
    requires { IsSetup setup.now }
    ensures is { IfOk result (StandsFor setup.now bytes.now) }
    ensures refused { IfErr result (IsNoState setup.now bytes.now place) }
{
    match load(alloc, setup, bytes) {
        Ok(state) => Ok(state),
        Err(StateFault::OutOfMemory) => Err(Refused::OutOfMemory),
        Err(fault) => Err(Refused::State { fault, place }),
    }
}

/// The commands that bytes spell for a match of so many players: a list in JSON, each item a player, the kind and what follows it, as in
/// a match file behind the turn.
pub fn commands_of(alloc: Global, players: u8, bytes: &[u8]) -> Result<Vec<PlayerCommand>, Refused>
    ensures meets { MeetsOrders result (orders_of_bytes players bytes.now) }
    ensures players { IfOk result (λ orders. All (IsOrderFor players) orders.items) }
    ensures no_text { is_utf8 bytes.now ≡ false → result ≡ Err (Refused.Commands 0) }
{
    let Some(value) = value_of(alloc, bytes)? else {
        return Err(Refused::Commands { index: 0 });
    };
    let Some(items) = list_of(&value) else {
        return Err(Refused::Commands { index: 0 });
    };
    commands_from(alloc, players, items)
}

fn commands_from(alloc: Global, players: u8, items: &[Value]) -> Result<Vec<PlayerCommand>, Refused>
    ensures meets { MeetsOrders result (orders_from_data players (map view items.now)) }
    ensures players { IfOk result (λ orders. All (IsOrderFor players) orders.items) }
{
    let mut found = Vec::new(alloc);
    let mut rest = items;
    while let [item, more @ ..] = rest {
        match order_of(alloc, players, item)? {
            Some(order) => found.push(order)?,
            None => return Err(none_at(found.len())),
        }
        rest = more;
    }
    Ok(found)
}

// A command of one of so many players, or None where the item is none.
#[tactic(auto, unfolding(crate::specs::Causes::order_of))]
fn order_of(alloc: Global, players: u8, item: &Value) -> Result<Option<PlayerCommand>, OutOfMemory>
    ensures value { IfOk result (λ order. order ≡ order_of_data players (view item.now)) }
    ensures player { IfOk result (λ found. IfSome found (IsOrderFor players)) }
{
    let Some([player, rest @ ..]) = list_of(item) else {
        return Ok(None);
    };
    let Some(player) = natural_in(player, 1, u64::from(players)) else {
        return Ok(None);
    };
    let Some(command) = command_of(alloc, rest)? else {
        return Ok(None);
    };
    Ok(Some(PlayerCommand {
        player: player as u8,
        command,
    }))
}

// The refusal of an item, by its place. One past 32 bits, which no list reaches, is want of memory.
fn none_at(place: usize) -> Refused
    ensures { TellsItem result place }
{
    match u32::try_from(place) {
        Ok(place) if place < u32::MAX => Refused::Commands { index: place + 1 },
        _ => Refused::OutOfMemory,
    }
}
