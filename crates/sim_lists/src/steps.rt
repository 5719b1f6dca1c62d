//! One step of a session. Each reader is handed what follows its word and its client.

ghost use Rattle.std.specs.Prelude.{false, IfOk, IfSome, IsOk, map, option_and_then, option_map, ◌≡◌};
ghost use Rattle.sim_lists.specs.StepLists.{alone as alone_in, bend_from as bend_from_data, client_of, IsStep, OrdersFew, plain_step_by as plain_step_by_word};
ghost use Rattle.sim_lists.specs.{Arrivals.order_takes, Arrivals.step_takes, StepLists.step_by as step_by_word, StepLists.step_of as step_of_data};
ghost use Rattle.{serde_json.specs.View.view, sim_json.specs.Values.front_two as front_two_of, sim_json.specs.Values.list_of as list_of_data};

use serde_json::Value;
use sim_base::{Global, OutOfMemory, Step};
use sim_json::{command_of, fixed, front_two, id_in, list_of, natural_in, two};

/// A step of one of so many players, or None where the item is none.
#[tactic(auto, unfolding(crate::specs::StepLists::step_of, crate::specs::Arrivals::step_takes))]
pub fn step_of(alloc: Global, players: u8, item: &Value) -> Result<Option<Step>, OutOfMemory>
    ensures value { IfOk result (λ step. step ≡ step_of_data players (view item.now)) }
    ensures limits { IfOk result (λ found. IfSome found (IsStep players)) }
    ensures memory { step_takes players (view item.now) ≡ false → IsOk result }
{
    let Some((word, client, rest)) = parts_of(item) else {
        return Ok(None);
    };
    let Some(word) = word.as_str() else {
        return Ok(None);
    };
    let Some(client) = natural_in(client, 1, u64::from(players)) else {
        return Ok(None);
    };
    step_by(alloc, word, client as u8, rest)
}

fn parts_of(item: &Value) -> Option<(&Value, &Value, &[Value])>
    ensures { option_map (λ p. (view p.0.now, view p.1.now, map view p.2.now)) result ≡ option_and_then front_two_of (list_of_data (view item.now)) }
{
    front_two(list_of(item)?)
}

fn step_by(
    alloc: Global,
    word: &str,
    client: u8,
    rest: &[Value],
) -> Result<Option<Step>, OutOfMemory>
    ensures value { IfOk result (λ step. step ≡ step_by_word word.now client (map view rest.now)) }
    ensures client { IfOk result (λ found. IfSome found (λ step. client_of step ≡ client)) }
    ensures few { IfOk result (λ found. IfSome found OrdersFew) }
    ensures memory { order_takes word.now (map view rest.now) ≡ false → IsOk result }
{
    if word == "order" {
        let Some(command) = command_of(alloc, rest)? else {
            return Ok(None);
        };
        return Ok(Some(Step::Order { client, command }));
    }
    Ok(plain_step_by(word, client, rest))
}

fn plain_step_by(word: &str, client: u8, rest: &[Value]) -> Option<Step>
    ensures value { result ≡ plain_step_by_word word.now client (map view rest.now) }
    ensures client { IfSome result (λ step. client_of step ≡ client) }
    ensures few { IfSome result OrdersFew }
{
    if word == "up" {
        return alone(Step::Up { client }, rest);
    }
    if word == "down" {
        return alone(Step::Down { client }, rest);
    }
    if word == "play" {
        return alone(Step::Play { client }, rest);
    }
    if word == "join" {
        return alone(Step::Join { client }, rest);
    }
    if word == "cut" {
        return alone(Step::Cut { client }, rest);
    }
    if word == "bend" {
        return bend_from(client, rest);
    }
    None
}

// The step, where nothing follows it.
fn alone(step: Step, rest: &[Value]) -> Option<Step>
    ensures value { result ≡ alone_in step (map view rest.now) }
    ensures same { IfSome result (λ found. found ≡ step) }
{
    match rest {
        [] => Some(step),
        _ => None,
    }
}

fn bend_from(client: u8, rest: &[Value]) -> Option<Step>
    ensures value { result ≡ bend_from_data client (map view rest.now) }
    ensures client { IfSome result (λ step. client_of step ≡ client) }
    ensures few { IfSome result OrdersFew }
{
    let (entity, health) = two(rest)?;
    let entity = id_in(entity)?;
    let health = fixed(health)?;
    Some(Step::Bend {
        client,
        entity,
        health,
    })
}
