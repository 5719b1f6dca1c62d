//! A command as it is read, in any spelling: the words that every command of a kind has are passed over. A line is
//! taken later, where it is printed so.

ghost use Rattle.std.specs.Prelude.{IfOk, ◌^◌, ◌≡◌};
ghost use Rattle.sim_replay.specs.Logs.{attack_of as attack_of_text, behind_two as behind_two_words, command_by as command_by_kind, natural_below};
ghost use Rattle.sim_replay.specs.Logs.{order_of as order_of_text, place_of as place_of_text, point_of as point_of_text, train_of as train_of_text};
ghost use Rattle.sim_replay.specs.Logs.{walk_of as walk_of_text};

use crate::words::{cut, ids_of, natural};
use sim_base::{Command, Fixed, Global, OutOfMemory, PlayerCommand, Point};

/// A player, and what it commands.
#[tactic(auto, unfolding(crate::specs::Logs::order_of))]
pub fn order_of(alloc: Global, text: &str) -> Result<Option<PlayerCommand>, OutOfMemory>
    ensures { IfOk result (λ order. order ≡ order_of_text text.now) }
{
    let (player, rest) = cut(text);
    let Some(player) = byte(player) else {
        return Ok(None);
    };
    let (kind, rest) = cut(rest);
    match command_by(alloc, kind, rest)? {
        Some(command) => Ok(Some(PlayerCommand { player, command })),
        None => Ok(None),
    }
}

#[tactic(auto, unfolding(crate::specs::Logs::command_by))]
fn command_by(alloc: Global, kind: &str, text: &str) -> Result<Option<Command>, OutOfMemory>
    ensures { IfOk result (λ command. command ≡ command_by_kind kind.now text.now) }
{
    if kind == "walk" {
        return walk_of(alloc, text);
    }
    if kind == "stop" {
        return Ok(ids_of(alloc, text)?.map(|ids| Command::Stop { ids }));
    }
    if kind == "attack" {
        return attack_of(alloc, text);
    }
    if kind == "delete" {
        return Ok(ids_of(alloc, text)?.map(|ids| Command::Delete { ids }));
    }
    if kind == "place" {
        return Ok(place_of(text));
    }
    if kind == "train" {
        return Ok(train_of(text));
    }
    if kind == "resign" {
        return Ok(Some(Command::Resign));
    }
    Ok(None)
}

#[tactic(auto, unfolding(crate::specs::Logs::walk_of))]
fn walk_of(alloc: Global, text: &str) -> Result<Option<Command>, OutOfMemory>
    ensures { IfOk result (λ command. command ≡ walk_of_text text.now) }
{
    let Some(ids) = ids_of(alloc, cut(text).0)? else {
        return Ok(None);
    };
    let Some(to) = point_of(behind_two(text)) else {
        return Ok(None);
    };
    Ok(Some(Command::Walk { ids, to }))
}

#[tactic(auto, unfolding(crate::specs::Logs::attack_of))]
fn attack_of(alloc: Global, text: &str) -> Result<Option<Command>, OutOfMemory>
    ensures { IfOk result (λ command. command ≡ attack_of_text text.now) }
{
    let Some(ids) = ids_of(alloc, cut(text).0)? else {
        return Ok(None);
    };
    let Some(target) = natural(behind_two(text)) else {
        return Ok(None);
    };
    Ok(Some(Command::Attack { ids, target }))
}

#[tactic(auto, unfolding(crate::specs::Logs::place_of))]
fn place_of(text: &str) -> Option<Command>
    ensures { result ≡ place_of_text text.now }
{
    let template = short(cut(text).0)?;
    let at = point_of(behind_two(text))?;
    Some(Command::Place { template, at })
}

#[tactic(auto, unfolding(crate::specs::Logs::train_of))]
fn train_of(text: &str) -> Option<Command>
    ensures { result ≡ train_of_text text.now }
{
    let (building, template) = cut(text);
    let building = natural(building)?;
    let template = short(template)?;
    Some(Command::Train { building, template })
}

// What stands behind the second word.
fn behind_two(text: &str) -> &str
    ensures { result.now ≡ behind_two_words text.now }
{
    cut(cut(text).1).1
}

#[tactic(auto, unfolding(crate::specs::Logs::point_of))]
fn point_of(text: &str) -> Option<Point>
    ensures { result ≡ point_of_text text.now }
{
    let (x, z) = cut(text);
    let x = Fixed::read_text(x)?;
    let z = Fixed::read_text(z)?;
    Some(Point { x, z })
}

// A number of 16 bits.
fn short(text: &str) -> Option<u16>
    ensures { result ≡ natural_below (2 ^ 16) text.now }
{
    u16::try_from(natural(text)?).ok()
}

// A number of 8 bits.
fn byte(text: &str) -> Option<u8>
    ensures { result ≡ natural_below (2 ^ 8) text.now }
{
    u8::try_from(natural(text)?).ok()
}
