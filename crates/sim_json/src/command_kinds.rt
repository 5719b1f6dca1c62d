//! Commands by their kinds. Each reader is handed what follows the kind.

ghost use Rattle.std.specs.Prelude.{IfErr, IfOk, IfSome, map, option_map, true, ◌≡◌};
ghost use Rattle.sim_json.specs.Commands.{aimed_take, alone_take, attack_from as attack_from_data, command_by as command_by_kind};
ghost use Rattle.sim_json.specs.Commands.{command_of as command_of_data, command_takes, delete_from as delete_from_data, kind_takes};
ghost use Rattle.sim_json.specs.Commands.{place_from as place_from_data, point_of as point_of_data, resign_from as resign_from_data, sent_take};
ghost use Rattle.sim_json.specs.Commands.{stop_from as stop_from_data, three as three_of, train_from as train_from_data, walk_from as walk_from_data};
ghost use Rattle.{serde_json.specs.View.view, sim_base.specs.Limits.HasFewIds, sim_json.specs.Readers.Reads, sim_json.specs.Readers.ReadsLight};

use crate::ids::{id_in, ids_of, template_in};
use crate::{fixed, two};
use serde_json::Value;
use sim_base::{Command, Global, OutOfMemory, Point};

/// The command that a list spells, from its kind on, or None where it spells none.
#[tactic(auto, unfolding(crate::specs::Commands::command_of, crate::specs::Commands::command_takes))]
pub fn command_of(alloc: Global, items: &[Value]) -> Result<Option<Command>, OutOfMemory>
    ensures value { IfOk result (λ command. command ≡ command_of_data (map view items.now)) }
    ensures few { IfOk result (λ found. IfSome found HasFewIds) }
    ensures memory { IfErr result (λ fault. command_takes (map view items.now) ≡ true) }
{
    match items {
        [kind, rest @ ..] => match kind.as_str() {
            Some(kind) => command_by(alloc, kind, rest),
            None => Ok(None),
        },
        [] => Ok(None),
    }
}

fn command_by(alloc: Global, kind: &str, rest: &[Value]) -> Result<Option<Command>, OutOfMemory>
    ensures { Reads result (command_by_kind kind.now (map view rest.now)) (kind_takes kind.now (map view rest.now)) }
{
    if kind == "walk" {
        return walk_from(alloc, rest);
    }
    if kind == "stop" {
        return stop_from(alloc, rest);
    }
    if kind == "attack" {
        return attack_from(alloc, rest);
    }
    if kind == "delete" {
        return delete_from(alloc, rest);
    }
    if kind == "place" {
        return Ok(place_from(rest));
    }
    if kind == "train" {
        return Ok(train_from(rest));
    }
    if kind == "resign" {
        return Ok(resign_from(rest));
    }
    Ok(None)
}

fn walk_from(alloc: Global, rest: &[Value]) -> Result<Option<Command>, OutOfMemory>
    ensures { Reads result (walk_from_data (map view rest.now)) (sent_take (map view rest.now)) }
{
    let Some((ids, x, z)) = three(rest) else {
        return Ok(None);
    };
    let Some(ids) = ids_of(alloc, ids)? else {
        return Ok(None);
    };
    let Some(to) = point_of(x, z) else {
        return Ok(None);
    };
    Ok(Some(Command::Walk { ids, to }))
}

fn stop_from(alloc: Global, rest: &[Value]) -> Result<Option<Command>, OutOfMemory>
    ensures { Reads result (stop_from_data (map view rest.now)) (alone_take (map view rest.now)) }
{
    match rest {
        [ids] => {
            let Some(ids) = ids_of(alloc, ids)? else {
                return Ok(None);
            };
            Ok(Some(Command::Stop { ids }))
        }
        _ => Ok(None),
    }
}

fn attack_from(alloc: Global, rest: &[Value]) -> Result<Option<Command>, OutOfMemory>
    ensures { Reads result (attack_from_data (map view rest.now)) (aimed_take (map view rest.now)) }
{
    let Some((ids, target)) = two(rest) else {
        return Ok(None);
    };
    let Some(ids) = ids_of(alloc, ids)? else {
        return Ok(None);
    };
    let Some(target) = id_in(target) else {
        return Ok(None);
    };
    Ok(Some(Command::Attack { ids, target }))
}

fn delete_from(alloc: Global, rest: &[Value]) -> Result<Option<Command>, OutOfMemory>
    ensures { Reads result (delete_from_data (map view rest.now)) (alone_take (map view rest.now)) }
{
    match rest {
        [ids] => {
            let Some(ids) = ids_of(alloc, ids)? else {
                return Ok(None);
            };
            Ok(Some(Command::Delete { ids }))
        }
        _ => Ok(None),
    }
}

fn place_from(rest: &[Value]) -> Option<Command>
    ensures { ReadsLight result (place_from_data (map view rest.now)) }
{
    let (template, x, z) = three(rest)?;
    let template = template_in(template)?;
    let at = point_of(x, z)?;
    Some(Command::Place { template, at })
}

fn train_from(rest: &[Value]) -> Option<Command>
    ensures { ReadsLight result (train_from_data (map view rest.now)) }
{
    let (building, template) = two(rest)?;
    let building = id_in(building)?;
    let template = template_in(template)?;
    Some(Command::Train { building, template })
}

fn resign_from(rest: &[Value]) -> Option<Command>
    ensures { ReadsLight result (resign_from_data (map view rest.now)) }
{
    match rest {
        [] => Some(Command::Resign),
        _ => None,
    }
}

/// The three items of a list of exactly three.
pub fn three(items: &[Value]) -> Option<(&Value, &Value, &Value)>
    ensures { option_map (λ p. (view p.0.now, view p.1.now, view p.2.now)) result ≡ three_of (map view items.now) }
{
    match items {
        [a, b, c] => Some((a, b, c)),
        _ => None,
    }
}

fn point_of(x: &Value, z: &Value) -> Option<Point>
    ensures { result ≡ point_of_data (view x.now) (view z.now) }
{
    let x = fixed(x)?;
    let z = fixed(z)?;
    Some(Point { x, z })
}
