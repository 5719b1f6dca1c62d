//! Codes 9 and 10 at the key `commands`: commands of turns and players, which `sim_json` reads from their kinds on.

ghost use Rattle.std.specs.Prelude.{IfErr, length, List, map, option_and_then, option_map, true, ◌<◌, ◌^◌, ◌≡◌, ◌≢◌, ◌≤◌};
ghost use Rattle.sim_setup.specs.Setups.{falls_at as falls_at_in, in_order as in_order_of, Meets, timed_of as timed_of_data, timed_takes};
ghost use Rattle.sim_setup.specs.{Common.Timed, Common.front_two as front_two_of, Common.list_of as list_of_data, Common.view, Crowds.Covers};
ghost use Rattle.sim_setup.specs.{Crowds.FindsTimed, Crowds.Tallies, Setups.timeds_from as timeds_from_data};

use crate::crowd::Crowd;
use crate::fault::{SetupFault, refused};
use serde_json::Value;
use sim_base::{Global, OutOfMemory, PlayerCommand, Timed, Timeds};
use sim_json::{command_of, front_two, list_of, natural_in};

/// The commands, or the refusal of the first item that is none.
pub fn timeds_from(
    alloc: Global,
    turns: u32,
    players: u8,
    items: &[Value],
) -> Result<Timeds, SetupFault>
    requires turns { turns ≤ 65535 }
    requires players { players ≤ 8 }
    ensures { Meets result (timeds_from_data turns players (map view items.now)) }
{
    let mut crowd = Crowd::new(alloc, turns)?;
    let mut found = Vec::new(alloc);
    let mut rest = items;
    while let [item, more @ ..] = rest {
        match timed_of(alloc, turns, players, &mut crowd, item)? {
            Some(timed) => found.push(timed)?,
            None => return Err(refused(9, found.len())),
        }
        rest = more;
    }
    Ok(Timeds::from_items(found))
}

#[tactic(auto, unfolding(crate::specs::Setups::timed_of, crate::specs::Setups::timed_takes))]
fn timed_of(
    alloc: Global,
    turns: u32,
    players: u8,
    crowd: &mut Crowd,
    item: &Value,
) -> Result<Option<Timed>, OutOfMemory>
    requires covers { Covers crowd.old turns }
    requires players { players ≤ 8 }
    ensures value { (done : List Timed) → Tallies crowd.old done → FindsTimed result (timed_of_data turns players done (view item.now)) crowd.new done }
    ensures size { length crowd.new ≡ length crowd.old }
    ensures memory { IfErr result (λ fault. timed_takes turns players (view item.now) ≡ true) }
{
    let Some((turn, player, rest)) = parts_of(item) else {
        return Ok(None);
    };
    let Some(turn) = natural_in(turn, 1, u64::from(turns)) else {
        return Ok(None);
    };
    let Some(player) = natural_in(player, 1, u64::from(players)) else {
        return Ok(None);
    };
    let Some(command) = command_of(alloc, rest)? else {
        return Ok(None);
    };
    let turn = turn as u32;
    let player = player as u8;
    if !crowd.admit(turn, player) {
        return Ok(None);
    }
    let order = PlayerCommand { player, command };
    Ok(Some(Timed { turn, order }))
}

fn parts_of(item: &Value) -> Option<(&Value, &Value, &[Value])>
    ensures { option_map (λ p. (view p.0.now, view p.1.now, map view p.2.now)) result ≡ option_and_then front_two_of (list_of_data (view item.now)) }
{
    front_two(list_of(item)?)
}

/// The commands, or the refusal of the first whose turn is less than that of the one before it.
pub fn in_order(commands: Timeds) -> Result<Timeds, SetupFault>
    ensures value { Meets result (in_order_of commands) }
    ensures memory { length commands < 2 ^ 32 → result ≢ Err SetupFault.OutOfMemory }
{
    match falls_at(commands.as_slice()) {
        Some(index) => Err(refused(10, index)),
        None => Ok(commands),
    }
}

fn falls_at(commands: &[Timed]) -> Option<usize>
    ensures { result ≡ falls_at_in 0 0 commands.now }
{
    let mut before = 0;
    let mut index = 0usize;
    let mut rest = commands;
    while let [command, more @ ..] = rest {
        if command.turn < before {
            return Some(index);
        }
        before = command.turn;
        index += 1;
        rest = more;
    }
    None
}
