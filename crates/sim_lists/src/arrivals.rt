//! One arrival of a schedule. Each reader is handed what follows its word.

ghost use Rattle.{serde_json.specs.{Find.as_str, View.view}, sim_json.specs.{Commands.next_or, Values.{front_two as front_two_of, list_of as list_of_data}}};
ghost use Rattle.sim_lists.specs.Arrivals.{arrival_by as arrival_by_word, arrival_of as arrival_of_data, arrival_takes, bytes_from as bytes_from_data};
ghost use Rattle.sim_lists.specs.Arrivals.{bytes_take, command_from as command_from_data, cut_from as cut_from_data, digest_of as digest_of_text, digest_takes};
ghost use Rattle.sim_lists.specs.Arrivals.{done_from as done_from_data, handed_takes, join_from as join_from_data, ordered_takes, raw_of as raw_of_text};
ghost use Rattle.sim_lists.specs.Arrivals.{raw_takes, report_from as report_from_data, report_takes, state_from as state_from_data, state_of as state_of_text};
ghost use Rattle.sim_lists.specs.{Arrivals.{state_takes, turn_in as turn_in_data, up_by as up_by_word, up_takes, word_takes}, StepLists.IsFromClient};
ghost use Rattle.std.specs.Prelude.{false, IfOk, IfSome, IsOk, map, option_and_then, option_map, ◌≡◌};

use crate::hexadecimal::{digest_of, raw_of, state_of};
use crate::schedule::{Arrival, Said};
use serde_json::Value;
use sim_base::{Global, OutOfMemory};
use sim_json::{command_of, front_two, list_of, natural_in, three, two};
use sim_wire::{Bytes, Up};

/// An arrival from one of so many clients, or None where the item is none.
#[tactic(auto, unfolding(crate::specs::Arrivals::arrival_of, crate::specs::Arrivals::arrival_takes))]
pub fn arrival_of(alloc: Global, clients: u8, item: &Value) -> Result<Option<Arrival>, OutOfMemory>
    ensures value { IfOk result (λ arrival. arrival ≡ arrival_of_data clients (view item.now)) }
    ensures client { IfOk result (λ found. IfSome found (IsFromClient clients)) }
    ensures memory { arrival_takes clients (view item.now) ≡ false → IsOk result }
{
    let Some((from, word, rest)) = parts_of(item) else {
        return Ok(None);
    };
    let Some(from) = natural_in(from, 1, u64::from(clients)) else {
        return Ok(None);
    };
    let Some(word) = word.as_str() else {
        return Ok(None);
    };
    arrival_by(alloc, from as u8, word, rest)
}

fn parts_of(item: &Value) -> Option<(&Value, &Value, &[Value])>
    ensures { option_map (λ p. (view p.0.now, view p.1.now, map view p.2.now)) result ≡ option_and_then front_two_of (list_of_data (view item.now)) }
{
    front_two(list_of(item)?)
}

fn arrival_by(
    alloc: Global,
    from: u8,
    word: &str,
    rest: &[Value],
) -> Result<Option<Arrival>, OutOfMemory>
    ensures value { IfOk result (λ arrival. arrival ≡ arrival_by_word from word.now (map view rest.now)) }
    ensures client { IfOk result (λ found. IfSome found (λ arrival. arrival.from ≡ from)) }
    ensures memory { word_takes word.now (map view rest.now) ≡ false → IsOk result }
{
    if word == "cut" {
        return Ok(cut_from(from, rest));
    }
    if word == "bytes" {
        return bytes_from(alloc, from, rest);
    }
    let Some(up) = up_by(alloc, word, rest)? else {
        return Ok(None);
    };
    let said = Said::Heard { up };
    Ok(Some(Arrival { from, said }))
}

fn cut_from(from: u8, rest: &[Value]) -> Option<Arrival>
    ensures value { result ≡ cut_from_data from (map view rest.now) }
    ensures client { IfSome result (λ arrival. arrival.from ≡ from) }
{
    match rest {
        [] => Some(Arrival {
            from,
            said: Said::Cut,
        }),
        _ => None,
    }
}

fn bytes_from(alloc: Global, from: u8, rest: &[Value]) -> Result<Option<Arrival>, OutOfMemory>
    ensures value { IfOk result (λ arrival. arrival ≡ bytes_from_data from (map view rest.now)) }
    ensures client { IfOk result (λ found. IfSome found (λ arrival. arrival.from ≡ from)) }
    ensures memory { bytes_take (map view rest.now) ≡ false → IsOk result }
{
    match rest {
        [text] => {
            let Some(bytes) = raw_in(alloc, text)? else {
                return Ok(None);
            };
            let said = Said::Raw { bytes };
            Ok(Some(Arrival { from, said }))
        }
        _ => Ok(None),
    }
}

fn up_by(alloc: Global, word: &str, rest: &[Value]) -> Result<Option<Up>, OutOfMemory>
    ensures value { IfOk result (λ up. up ≡ up_by_word word.now (map view rest.now)) }
    ensures memory { up_takes word.now (map view rest.now) ≡ false → IsOk result }
{
    if word == "join" {
        return Ok(join_from(rest));
    }
    if word == "command" {
        return command_from(alloc, rest);
    }
    if word == "done" {
        return Ok(done_from(rest));
    }
    if word == "report" {
        return report_from(alloc, rest);
    }
    if word == "state" {
        return state_from(alloc, rest);
    }
    Ok(None)
}

fn join_from(rest: &[Value]) -> Option<Up>
    ensures { result ≡ join_from_data (map view rest.now) }
{
    match rest {
        [] => Some(Up::Join),
        _ => None,
    }
}

fn command_from(alloc: Global, rest: &[Value]) -> Result<Option<Up>, OutOfMemory>
    ensures value { IfOk result (λ up. up ≡ command_from_data (map view rest.now)) }
    ensures memory { ordered_takes (map view rest.now) ≡ false → IsOk result }
{
    match rest {
        [turn, command @ ..] => {
            let Some(turn) = turn_in(turn) else {
                return Ok(None);
            };
            let Some(command) = command_of(alloc, command)? else {
                return Ok(None);
            };
            Ok(Some(Up::Command { turn, command }))
        }
        [] => Ok(None),
    }
}

fn done_from(rest: &[Value]) -> Option<Up>
    ensures { result ≡ done_from_data (map view rest.now) }
{
    match rest {
        [turn] => {
            let turn = turn_in(turn)?;
            Some(Up::Done { turn })
        }
        _ => None,
    }
}

fn report_from(alloc: Global, rest: &[Value]) -> Result<Option<Up>, OutOfMemory>
    ensures value { IfOk result (λ up. up ≡ report_from_data (map view rest.now)) }
    ensures memory { report_takes (map view rest.now) ≡ false → IsOk result }
{
    let Some((turn, digest)) = two(rest) else {
        return Ok(None);
    };
    let Some(turn) = turn_in(turn) else {
        return Ok(None);
    };
    let Some(digest) = digest_in(alloc, digest)? else {
        return Ok(None);
    };
    Ok(Some(Up::Report { turn, digest }))
}

fn state_from(alloc: Global, rest: &[Value]) -> Result<Option<Up>, OutOfMemory>
    ensures value { IfOk result (λ up. up ≡ state_from_data (map view rest.now)) }
    ensures memory { handed_takes (map view rest.now) ≡ false → IsOk result }
{
    let Some((client, turn, bytes)) = three(rest) else {
        return Ok(None);
    };
    let Some(client) = natural_in(client, 0, u64::from(u8::MAX)) else {
        return Ok(None);
    };
    let Some(turn) = turn_in(turn) else {
        return Ok(None);
    };
    let Some(bytes) = bytes_in(alloc, bytes)? else {
        return Ok(None);
    };
    let client = client as u8;
    Ok(Some(Up::State {
        client,
        turn,
        bytes,
    }))
}

fn turn_in(value: &Value) -> Option<u32>
    ensures { result ≡ turn_in_data (view value.now) }
{
    match natural_in(value, 0, u64::from(u32::MAX)) {
        Some(turn) => Some(turn as u32),
        None => None,
    }
}

fn digest_in(alloc: Global, value: &Value) -> Result<Option<[u8; 16]>, OutOfMemory>
    ensures value { IfOk result (λ digest. digest ≡ option_and_then digest_of_text (as_str (view value.now))) }
    ensures memory { next_or (as_str (view value.now)) false digest_takes ≡ false → IsOk result }
{
    match value.as_str() {
        Some(text) => digest_of(alloc, text),
        None => Ok(None),
    }
}

fn raw_in(alloc: Global, value: &Value) -> Result<Option<Bytes>, OutOfMemory>
    ensures value { IfOk result (λ bytes. bytes ≡ option_and_then raw_of_text (as_str (view value.now))) }
    ensures memory { next_or (as_str (view value.now)) false raw_takes ≡ false → IsOk result }
{
    match value.as_str() {
        Some(text) => raw_of(alloc, text),
        None => Ok(None),
    }
}

fn bytes_in(alloc: Global, value: &Value) -> Result<Option<Bytes>, OutOfMemory>
    ensures value { IfOk result (λ bytes. bytes ≡ option_and_then state_of_text (as_str (view value.now))) }
    ensures memory { next_or (as_str (view value.now)) false state_takes ≡ false → IsOk result }
{
    match value.as_str() {
        Some(text) => state_of(alloc, text),
        None => Ok(None),
    }
}
