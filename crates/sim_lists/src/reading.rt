//! The whole schedule: the object and its numbers first, then each arrival.

ghost use Rattle.{serde_json.specs.View.view, sim_json.specs.Values.list_at as list_at_key};
ghost use Rattle.sim_lists.specs.{Arrivals.{arrival_of as arrival_of_data, arrival_takes}, Meets.Meets, StepLists.arrivals_from as arrivals_from_data};
ghost use Rattle.sim_lists.specs.StepLists.{early_items, early_schedule, early_schedule_within, few as few_of, IsFromClient, IsSchedule};
ghost use Rattle.sim_lists.specs.StepLists.{schedule_in as schedule_in_data, schedule_of as schedule_of_bytes, schedule_within as schedule_within_data};
ghost use Rattle.std.specs.{Prelude.{All, false, IfOk, IfSome, map, option_and_then, option_map, ◌≡◌}, Str.is_utf8};

use crate::fault::refused;
use crate::{Arrivals, ListFault, Schedule, arrival_of};
use serde_json::Value;
use sim_json::{list_at, natural_at, other_key, value_of};
use std::alloc::Global;

// A list has so many items at most.
const MOST: usize = 100_000;

const KEYS: [&str; 5] = ["clients", "active", "delay", "turns", "arrivals"];

// What is wrong with the bytes, the object or its numbers.
pub(crate) const NO_LIST: ListFault = ListFault::Refused { index: 0 };

/// The schedule that the bytes of a file spell, or why they spell none.
pub fn schedule_of(alloc: Global, bytes: &[u8]) -> Result<Schedule, ListFault>
    ensures meets { Meets result (schedule_of_bytes bytes.now) }
    ensures limits { IfOk result IsSchedule }
    ensures no_text { is_utf8 bytes.now ≡ false → result ≡ Err (ListFault.Refused 0) }
{
    match value_of(alloc, bytes)? {
        Some(value) => schedule_in(alloc, &value),
        None => Err(NO_LIST),
    }
}

fn schedule_in(alloc: Global, value: &Value) -> Result<Schedule, ListFault>
    ensures meets { Meets result (schedule_in_data (view value.now)) }
    ensures limits { IfOk result IsSchedule }
    ensures early { IfSome (early_schedule (view value.now)) (λ index. result ≡ Err (ListFault.Refused index)) }
{
    if other_key(value, &KEYS) {
        return Err(NO_LIST);
    }
    schedule_within(alloc, value)
}

fn schedule_within(alloc: Global, value: &Value) -> Result<Schedule, ListFault>
    ensures meets { Meets result (schedule_within_data (view value.now)) }
    ensures limits { IfOk result IsSchedule }
    ensures early { IfSome (early_schedule_within (view value.now)) (λ index. result ≡ Err (ListFault.Refused index)) }
{
    let Some(clients) = natural_at(value, 1, 8, "clients") else {
        return Err(NO_LIST);
    };
    let Some(active) = natural_at(value, 0, clients, "active") else {
        return Err(NO_LIST);
    };
    let Some(delay) = natural_at(value, 1, 8, "delay") else {
        return Err(NO_LIST);
    };
    let Some(turns) = natural_at(value, 0, 65_535, "turns") else {
        return Err(NO_LIST);
    };
    let Some(items) = few(value, "arrivals") else {
        return Err(NO_LIST);
    };
    let clients = clients as u8;
    let arrivals = arrivals_from(alloc, clients, items)?;
    Ok(Schedule {
        clients,
        active: active as u8,
        delay: delay as u8,
        turns: turns as u32,
        arrivals,
    })
}

// The items of a list under a key, where there are not too many.
pub(crate) fn few<'v>(value: &'v Value, key: &str) -> Option<&'v [Value]>
    ensures { option_map (λ items. map view items.now) result ≡ option_and_then (few_of 100000) (list_at_key key.now (view value.now)) }
{
    let items = list_at(value, key)?;
    if items.len() <= MOST {
        Some(items)
    } else {
        None
    }
}

fn arrivals_from(alloc: Global, clients: u8, items: &[Value]) -> Result<Arrivals, ListFault>
    ensures meets { Meets result (arrivals_from_data clients (map view items.now)) }
    ensures clients { IfOk result (λ arrivals. All (IsFromClient clients) arrivals) }
    ensures early { IfSome (early_items (arrival_of_data clients) (arrival_takes clients) (map view items.now))
        (λ index. result ≡ Err (ListFault.Refused index)) }
{
    let mut found = Vec::new(alloc);
    let mut rest = items;
    while let [item, more @ ..] = rest {
        match arrival_of(alloc, clients, item)? {
            Some(arrival) => found.push(arrival)?,
            None => return Err(refused(found.len())),
        }
        rest = more;
    }
    Ok(Arrivals::from_items(found))
}
