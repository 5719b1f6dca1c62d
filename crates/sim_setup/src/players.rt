//! Code 3 at the key `players`: the enemies of each player, as masks.

ghost use Rattle.std.specs.Prelude.{codes, IfOk, IfSome, length, map, None, ◌<◌, ◌≡◌, ◌≤◌};
ghost use Rattle.sim_setup.specs.Setups.{enemy_in as enemy_in_data, mask_from as mask_from_data, mask_of as mask_of_data, masks_from as masks_from_data};
ghost use Rattle.sim_setup.specs.{Common.list_at as list_at_key, Common.view, Setups.masks_in as masks_in_data};

use serde_json::Value;
use sim_base::{Global, Ids, OutOfMemory};
use sim_json::{list_at, list_of, natural_in};

/// The masks of Gaia and the players, where there are 1 to 8 players and each has enemies alone that there are.
pub fn masks_in(alloc: Global, value: &Value) -> Result<Option<Ids>, OutOfMemory>
    ensures value { IfOk result (λ masks. masks ≡ masks_in_data (view value.now)) }
    ensures no_list { list_at_key (codes "players") (view value.now) ≡ None → result ≡ Ok None }
    ensures few { IfOk result (λ masks. IfSome masks (λ masks. length masks ≤ 9)) }
{
    match list_at(value, "players") {
        Some(items) => masks_from(alloc, items),
        None => Ok(None),
    }
}

fn masks_from(alloc: Global, items: &[Value]) -> Result<Option<Ids>, OutOfMemory>
    ensures value { IfOk result (λ masks. masks ≡ masks_from_data (map view items.now)) }
    ensures none { length items.now ≡ 0 → result ≡ Ok None }
    ensures many { 8 < length items.now → result ≡ Ok None }
    ensures few { IfOk result (λ masks. IfSome masks (λ masks. length masks ≤ 9)) }
{
    if items.is_empty() || items.len() > 8 {
        return Ok(None);
    }
    let mut found = Vec::new(alloc);
    found.push(0u32)?;
    let mut rest = items;
    while let [item, more @ ..] = rest {
        match mask_of(items.len(), found.len(), item) {
            Some(mask) => found.push(mask)?,
            None => return Ok(None),
        }
        rest = more;
    }
    Ok(Some(Ids::from_items(found)))
}

fn mask_of(players: usize, player: usize, value: &Value) -> Option<u32>
    requires { players ≤ 8 }
    ensures { (done : _) → length done ≡ player → result ≡ mask_of_data players done (view value.now) }
{
    mask_from(players, player, list_of(value)?)
}

fn mask_from(players: usize, player: usize, items: &[Value]) -> Option<u32>
    requires { players ≤ 8 }
    ensures { result ≡ mask_from_data players player 0 (map view items.now) }
{
    let mut mask = 0u32;
    let mut rest = items;
    while let [item, more @ ..] = rest {
        let enemy = enemy_in(players, player, item)?;
        mask |= 1u32 << enemy;
        rest = more;
    }
    Some(mask)
}

fn enemy_in(players: usize, player: usize, value: &Value) -> Option<u64>
    ensures value { result ≡ enemy_in_data players player (view value.now) }
    ensures owner { IfSome result (λ enemy. enemy ≤ players) }
{
    let enemy = natural_in(value, 0, players as u64)?;
    if enemy == player as u64 {
        None
    } else {
        Some(enemy)
    }
}
