//! A line that is taken only as it is printed: it is read in any spelling, printed, and compared.

ghost use Rattle.std.specs.{Prelude.IfOk, Prelude.option_map, Prelude.◌≡◌, Str.bytes_eq};
ghost use Rattle.sim_replay.specs.Logs.{digest_in as digest_in_line, digest_line, digest_of as digest_of_text, header_line, order_in as order_in_line};
ghost use Rattle.sim_replay.specs.Logs.{order_line, spelled, text_in as text_in_bytes};

use crate::commands::order_of;
use crate::lines::{push_digest_front, push_digest_line, push_header, push_order_front};
use crate::words::behind;
use sim_base::{Global, OutOfMemory, PlayerCommand, Setup};
use sim_report::push_turn_order;

/// Whether a line is the one that names the match.
pub fn is_header(alloc: Global, setup: &Setup, line: &[u8]) -> Result<bool, OutOfMemory>
    ensures { IfOk result (λ same. same ≡ bytes_eq line.now (header_line setup.now)) }
{
    let mut printed = String::new(alloc);
    push_header(setup, &mut printed)?;
    Ok(line == printed.as_bytes())
}

/// The digest of the line that ends a turn.
#[tactic(auto, unfolding(crate::specs::Logs::digest_in))]
pub fn digest_in(alloc: Global, turn: u32, line: &[u8]) -> Result<Option<[u8; 16]>, OutOfMemory>
    ensures { IfOk result (λ digest. digest ≡ digest_in_line turn line.now) }
{
    let mut front = String::new(alloc);
    push_digest_front(turn, &mut front)?;
    let Some(text) = behind(front.as_str(), line) else {
        return Ok(None);
    };
    match digest_of(text) {
        Some(digest) => spelled_digest(alloc, turn, digest, line),
        None => Ok(None),
    }
}

// The digest that hexadecimal digits of either case spell.
fn digest_of(text: &[u8]) -> Option<[u8; 16]>
    ensures { result ≡ digest_of_text text.now }
{
    let mut digest = [0; 16];
    match hex::decode_to_slice(text, &mut digest) {
        Ok(()) => Some(digest),
        Err(_) => None,
    }
}

fn spelled_digest(
    alloc: Global,
    turn: u32,
    digest: [u8; 16],
    line: &[u8],
) -> Result<Option<[u8; 16]>, OutOfMemory>
    ensures { IfOk result (λ found. found ≡ spelled (digest_line turn) line.now digest) }
{
    let mut printed = String::new(alloc);
    push_digest_line(turn, &digest, &mut printed)?;
    if printed.as_bytes() == line {
        Ok(Some(digest))
    } else {
        Ok(None)
    }
}

/// The command of a turn's line.
#[tactic(auto, unfolding(crate::specs::Logs::order_in))]
pub fn order_in(alloc: Global, turn: u32, line: &[u8]) -> Result<Option<PlayerCommand>, OutOfMemory>
    ensures { IfOk result (λ order. order ≡ order_in_line turn line.now) }
{
    let mut front = String::new(alloc);
    push_order_front(turn, &mut front)?;
    let Some(bytes) = behind(front.as_str(), line) else {
        return Ok(None);
    };
    let Some(text) = text_in(bytes) else {
        return Ok(None);
    };
    match order_of(alloc, text)? {
        Some(order) => spelled_order(alloc, turn, order, line),
        None => Ok(None),
    }
}

// The text that bytes are, if they are one.
fn text_in(bytes: &[u8]) -> Option<&str>
    ensures { option_map (λ text. text.now) result ≡ text_in_bytes bytes.now }
{
    match std::str::from_utf8(bytes) {
        Ok(text) => Some(text),
        Err(_) => None,
    }
}

fn spelled_order(
    alloc: Global,
    turn: u32,
    order: PlayerCommand,
    line: &[u8],
) -> Result<Option<PlayerCommand>, OutOfMemory>
    ensures { IfOk result (λ found. found ≡ spelled (order_line turn) line.now order) }
{
    let mut spelling = String::new(alloc);
    push_turn_order(turn, &order, &mut spelling)?;
    if spelling.as_bytes() == line {
        Ok(Some(order))
    } else {
        Ok(None)
    }
}
