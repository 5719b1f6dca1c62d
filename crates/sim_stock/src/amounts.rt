//! Lists of pairs of amounts: what each player begins with, and the prices and incomes of templates by their names.

ghost use Rattle.serde_json.specs.{Find.as_str, View.view};
ghost use Rattle.sim_stock.specs.Economies.{is_named as is_named_in, IsRate, IsStart, named_from as named_from_data, named_in as named_in_data};
ghost use Rattle.sim_stock.specs.Economies.{named_of as named_of_data, number_of as number_of_name, opening as opening_of, pair_of as pair_of_data};
ghost use Rattle.sim_stock.specs.Economies.{pairs_from as pairs_from_data, rate_named as rate_named_in, rate_of as rate_of_data, rates_in as rates_in_data};
ghost use Rattle.sim_stock.specs.{Economies.{rates_of as rates_of_named, start_in as start_in_data}, Meets.Finds};
ghost use Rattle.std.specs.{Prelude.{All, IfOk, IfSome, map, option_and_then, option_map, position, ◌≡◌}, Str.bytes_eq};

use crate::rate::{Rate, Rates, rate_at};
use crate::stocks::Stocks;
use serde_json::Value;
use sim_base::{Global, OutOfMemory, Template};
use sim_json::{list_at, list_of, natural_in, two};

// What a player has of a good at most when the match begins.
const MOST: u64 = 1_000_000_000;

/// A rate of the template with this number.
#[derive(Clone, Copy, Debug)]
pub struct NamedRate {
    pub number: usize,
    pub rate: Rate,
}

/// What the players begin with, or None where there is no list of one pair of amounts for each.
pub fn start_in(alloc: Global, players: u8, value: &Value) -> Result<Option<Stocks>, OutOfMemory>
    ensures value { IfOk result (λ found. found ≡ start_in_data players (view value.now)) }
    ensures limits { IfOk result (λ found. IfSome found IsStart) }
{
    let Some(items) = list_at(value, "start") else {
        return Ok(None);
    };
    if items.len() != usize::from(players) {
        return Ok(None);
    }
    let Some(pairs) = pairs_from(alloc, items)? else {
        return Ok(None);
    };
    Ok(Some(opening(pairs.as_slice())))
}

fn pairs_from(alloc: Global, items: &[Value]) -> Result<Option<Vec<Rate>>, OutOfMemory>
    ensures value { IfOk result (λ found. option_map (λ pairs. pairs.items) found ≡ pairs_from_data (map view items.now)) }
    ensures limits { IfOk result (λ found. IfSome found (λ pairs. All (IsRate 1000000000) pairs.items)) }
{
    let mut found = Vec::new(alloc);
    let mut rest = items;
    while let [item, more @ ..] = rest {
        match pair_of(item) {
            Some(pair) => found.push(pair)?,
            None => return Ok(None),
        }
        rest = more;
    }
    Ok(Some(found))
}

fn pair_of(item: &Value) -> Option<Rate>
    ensures { Finds result (pair_of_data (view item.now)) (IsRate 1000000000) }
{
    rate_of(MOST, list_of(item)?)
}

fn rate_of(limit: u64, items: &[Value]) -> Option<Rate>
    ensures { Finds result (rate_of_data limit (map view items.now)) (IsRate limit) }
{
    let (food, metal) = two(items)?;
    let food = natural_in(food, 0, limit)?;
    let metal = natural_in(metal, 0, limit)?;
    Some(Rate { food, metal })
}

// The stocks of players who begin with these amounts.
fn opening(pairs: &[Rate]) -> Stocks
    ensures { result ≡ opening_of pairs.now }
{
    let mut food = [0; 8];
    let mut metal = [0; 8];
    for place in 0..8 {
        let pair = rate_at(pairs, place);
        food[place] = pair.food;
        metal[place] = pair.metal;
    }
    Stocks { food, metal }
}

/// A rate for each template: that of its name in the list under a key, or none of either good. None where the list has an
/// item that names no template, one that names it again, or an amount above the limit.
pub fn rates_in(
    alloc: Global,
    templates: &[Template],
    limit: u64,
    value: &Value,
    key: &str,
) -> Result<Option<Rates>, OutOfMemory>
    ensures value { IfOk result (λ found. found ≡ rates_in_data templates.now limit key.now (view value.now)) }
    ensures limits { IfOk result (λ found. IfSome found (All (IsRate limit))) }
{
    let Some(items) = list_at(value, key) else {
        return Ok(None);
    };
    let Some(named) = named_from(alloc, templates, limit, items)? else {
        return Ok(None);
    };
    let rates = rates_of(alloc, templates.len(), named.as_slice())?;
    Ok(Some(rates))
}

fn named_from(
    alloc: Global,
    templates: &[Template],
    limit: u64,
    items: &[Value],
) -> Result<Option<Vec<NamedRate>>, OutOfMemory>
    ensures value { IfOk result (λ found. option_map (λ named. named.items) found ≡ named_from_data templates.now limit (map view items.now)) }
    ensures limits { IfOk result (λ found. IfSome found (λ named. All (λ n. IsRate limit n.rate) named.items)) }
{
    let mut found = Vec::new(alloc);
    let mut rest = items;
    while let [item, more @ ..] = rest {
        match named_of(templates, limit, found.as_slice(), item) {
            Some(named) => found.push(named)?,
            None => return Ok(None),
        }
        rest = more;
    }
    Ok(Some(found))
}

fn named_of(
    templates: &[Template],
    limit: u64,
    done: &[NamedRate],
    item: &Value,
) -> Option<NamedRate>
    ensures { Finds result (named_of_data templates.now limit done.now (view item.now)) (λ n. IsRate limit n.rate) }
{
    named_in(templates, limit, done, list_of(item)?)
}

fn named_in(
    templates: &[Template],
    limit: u64,
    done: &[NamedRate],
    items: &[Value],
) -> Option<NamedRate>
    ensures { Finds result (named_in_data templates.now limit done.now (map view items.now)) (λ n. IsRate limit n.rate) }
{
    let [name, rest @ ..] = items else {
        return None;
    };
    let number = number_of(templates, name)?;
    let rate = rate_of(limit, rest)?;
    if is_named(done, number) {
        return None;
    }
    Some(NamedRate { number, rate })
}

fn is_named(done: &[NamedRate], number: usize) -> bool
    ensures { result ≡ is_named_in number done.now }
{
    done.iter().any(|named| named.number == number)
}

fn number_of(templates: &[Template], name: &Value) -> Option<usize>
    ensures { result ≡ option_and_then (number_of_name templates.now) (as_str (view name.now)) }
{
    place_of(templates, name.as_str()?)
}

fn place_of(templates: &[Template], name: &str) -> Option<usize>
    ensures { result ≡ number_of_name templates.now name.now }
{
    templates
        .iter()
        .position(|template| is_called(template, name))
}

fn is_called(template: &Template, name: &str) -> bool
    ensures { result ≡ bytes_eq template.now.name name.now }
{
    template.name.text() == name
}

fn rates_of(alloc: Global, count: usize, named: &[NamedRate]) -> Result<Rates, OutOfMemory>
    ensures value { IfOk result (λ rates. rates ≡ rates_of_named count named.now) }
{
    let mut rates = Vec::new(alloc);
    for number in 0..count {
        rates.push(rate_named(named, number))?;
    }
    Ok(Rates::from_items(rates))
}

fn rate_named(named: &[NamedRate], number: usize) -> Rate
    ensures { result ≡ rate_named_in named.now number }
{
    match named.iter().find(|named| named.number == number) {
        Some(named) => named.rate,
        None => Rate { food: 0, metal: 0 },
    }
}
