//! The whole list of steps: the object and its number of clients first, then each step.

ghost use Rattle.{serde_json.specs.View.view, sim_lists.specs.{Arrivals.step_takes, Meets.Meets, StepLists.early_items}};
ghost use Rattle.sim_lists.specs.StepLists.{early_steps, early_steps_within, IsStep, IsStepList, step_of as step_of_data, steps_from as steps_from_data};
ghost use Rattle.sim_lists.specs.StepLists.{steps_in as steps_in_data, steps_of as steps_of_bytes, steps_within as steps_within_data};
ghost use Rattle.std.specs.{Prelude.{All, false, IfOk, IfSome, map, ◌≡◌}, Str.is_utf8};

use crate::fault::refused;
use crate::reading::{NO_LIST, few};
use crate::{ListFault, StepList, step_of};
use serde_json::Value;
use sim_base::{Global, Steps};
use sim_json::{natural_at, other_key, value_of};

const KEYS: [&str; 2] = ["clients", "steps"];

/// The list of steps that the bytes of a file spell for a match of so many players, or why they spell none.
pub fn steps_of(alloc: Global, bytes: &[u8], players: u8) -> Result<StepList, ListFault>
    ensures meets { Meets result (steps_of_bytes players bytes.now) }
    ensures limits { IfOk result (IsStepList players) }
    ensures no_text { is_utf8 bytes.now ≡ false → result ≡ Err (ListFault.Refused 0) }
{
    match value_of(alloc, bytes)? {
        Some(value) => steps_in(alloc, &value, players),
        None => Err(NO_LIST),
    }
}

fn steps_in(alloc: Global, value: &Value, players: u8) -> Result<StepList, ListFault>
    ensures meets { Meets result (steps_in_data players (view value.now)) }
    ensures limits { IfOk result (IsStepList players) }
    ensures early { IfSome (early_steps players (view value.now)) (λ index. result ≡ Err (ListFault.Refused index)) }
{
    if other_key(value, &KEYS) {
        return Err(NO_LIST);
    }
    steps_within(alloc, value, players)
}

fn steps_within(alloc: Global, value: &Value, players: u8) -> Result<StepList, ListFault>
    ensures meets { Meets result (steps_within_data players (view value.now)) }
    ensures limits { IfOk result (IsStepList players) }
    ensures early { IfSome (early_steps_within players (view value.now)) (λ index. result ≡ Err (ListFault.Refused index)) }
{
    let Some(clients) = natural_at(value, 1, u64::from(players), "clients") else {
        return Err(NO_LIST);
    };
    let Some(items) = few(value, "steps") else {
        return Err(NO_LIST);
    };
    let steps = steps_from(alloc, players, items)?;
    let clients = clients as u8;
    Ok(StepList { clients, steps })
}

fn steps_from(alloc: Global, players: u8, items: &[Value]) -> Result<Steps, ListFault>
    ensures meets { Meets result (steps_from_data players (map view items.now)) }
    ensures limits { IfOk result (λ steps. All (IsStep players) steps) }
    ensures early { IfSome (early_items (step_of_data players) (step_takes players) (map view items.now)) (λ index. result ≡ Err (ListFault.Refused index)) }
{
    let mut found = Vec::new(alloc);
    let mut rest = items;
    while let [item, more @ ..] = rest {
        match step_of(alloc, players, item)? {
            Some(step) => found.push(step)?,
            None => return Err(refused(found.len())),
        }
        rest = more;
    }
    Ok(Steps::from_items(found))
}
