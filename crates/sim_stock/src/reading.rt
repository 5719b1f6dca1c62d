//! The whole economy: the object, what players begin with and the two lists of rates first, then each deed.

ghost use Rattle.{serde_json.specs.View.view, sim_stock.specs.declared.deed.DatedDeed.DatedDeed as AnyDated};
ghost use Rattle.sim_stock.specs.Economies.{deeds_from as deeds_from_data, economy_in as economy_in_data, economy_of as economy_of_bytes};
ghost use Rattle.sim_stock.specs.{Economies.{economy_within as economy_within_data, few as few_of, IsDated, IsEconomy}, Meets.{Meets, MeetsWithin}};
ghost use Rattle.std.specs.{List.Sorted.IsNonDecreasingBy, Prelude.{All, false, IfOk, map, option_map, ◌≡◌}, Str.is_utf8};

use crate::amounts::{rates_in, start_in};
use crate::deed_items::dated_of;
use crate::fault::refused;
use crate::{DatedDeeds, Economy, EconomyFault};
use serde_json::Value;
use sim_base::{Global, Setup};
use sim_json::{list_at, other_key, value_of};

// A list of deeds has so many at most.
const MOST: usize = 100_000;

const KEYS: [&str; 4] = ["start", "prices", "income", "deeds"];

// What is wrong with anything but a deed.
const NO_ECONOMY: EconomyFault = EconomyFault::Refused { index: 0 };

/// The economy of a match that the bytes of a file spell, or why they spell none.
pub fn economy_of(alloc: Global, setup: &Setup, bytes: &[u8]) -> Result<Economy, EconomyFault>
    ensures meets { Meets result (economy_of_bytes setup.now bytes.now) }
    ensures limits { IfOk result (IsEconomy setup.now) }
    ensures no_text { is_utf8 bytes.now ≡ false → result ≡ Err (EconomyFault.Refused 0) }
{
    match value_of(alloc, bytes)? {
        Some(value) => economy_in(alloc, setup, &value),
        None => Err(NO_ECONOMY),
    }
}

fn economy_in(alloc: Global, setup: &Setup, value: &Value) -> Result<Economy, EconomyFault>
    ensures { MeetsWithin result (economy_in_data setup.now (view value.now)) (IsEconomy setup.now) }
{
    if other_key(value, &KEYS) {
        return Err(NO_ECONOMY);
    }
    economy_within(alloc, setup, value)
}

fn economy_within(alloc: Global, setup: &Setup, value: &Value) -> Result<Economy, EconomyFault>
    ensures { MeetsWithin result (economy_within_data setup.now (view value.now)) (IsEconomy setup.now) }
{
    let templates = setup.templates.as_slice();
    let Some(start) = start_in(alloc, setup.players, value)? else {
        return Err(NO_ECONOMY);
    };
    let Some(prices) = rates_in(alloc, templates, 1_000_000, value, "prices")? else {
        return Err(NO_ECONOMY);
    };
    let Some(income) = rates_in(alloc, templates, 1_000, value, "income")? else {
        return Err(NO_ECONOMY);
    };
    let Some(items) = few(value) else {
        return Err(NO_ECONOMY);
    };
    let deeds = deeds_from(alloc, setup.players, setup.turns, items)?;
    Ok(Economy {
        start,
        prices,
        income,
        deeds,
    })
}

// The items of the list of deeds, where there are not too many.
fn few(value: &Value) -> Option<&[Value]>
    ensures { option_map (λ items. map view items.now) result ≡ few_of (view value.now) }
{
    let items = list_at(value, "deeds")?;
    if items.len() <= MOST {
        Some(items)
    } else {
        None
    }
}

// The deeds, or the refusal of the first item that is none or is of a turn below that of the one before it.
#[tactic(auto, using(crate::proofs::Runs::run_on, crate::proofs::Runs::no_run))]
fn deeds_from(
    alloc: Global,
    players: u8,
    turns: u32,
    items: &[Value],
) -> Result<DatedDeeds, EconomyFault>
    ensures meets { Meets result (deeds_from_data players turns (map view items.now)) }
    ensures limits { IfOk result (All (IsDated players turns)) }
    ensures rising { IfOk result (IsNonDecreasingBy (λ (dated : AnyDated). dated.turn)) }
{
    let mut found = Vec::new(alloc);
    let mut earliest = 1;
    let mut rest = items;
    while let [item, more @ ..] = rest {
        let Some(dated) = dated_of(players, turns, earliest, item) else {
            return Err(refused(found.len()));
        };
        earliest = dated.turn;
        found.push(dated)?;
        rest = more;
    }
    Ok(DatedDeeds::from_items(found))
}
