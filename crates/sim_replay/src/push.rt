//! A whole log, printed.

ghost use Rattle.std.specs.Prelude.{flat_map, length, map, OnErr, OnOk, take, ◌++◌, ◌≡◌, ◌≤◌};
ghost use Rattle.sim_replay.specs.Logs.{digest_line, ended, header_line, IsOfTurns, lines_from, order_line, text_of_log};

use crate::lines::{push_digest_line, push_header};
use crate::log::{Log, Orders};
use sim_base::{OutOfMemory, PlayerCommand, Setup};
use sim_report::push_turn_order;

/// Appends the text of a log, or leaves the bytes as they were. What its commands are makes no difference: only of one that is a log
/// of the match is the text read as itself.
pub fn push_log(setup: &Setup, log: &Log, out: &mut Vec<u8>) -> Result<(), OutOfMemory>
    requires { IsOfTurns setup.now log.now }
    ensures ok { OnOk result (out.new.items ≡ out.old.items ++ text_of_log setup.now log.now) }
    ensures err { OnErr result (out.new.items ≡ out.old.items) }
{
    let length = out.len();
    match append_log(setup, log, out) {
        Ok(()) => Ok(()),
        Err(stop) => {
            out.truncate(length);
            Err(stop)
        }
    }
}

// After an error a part of the text may stand behind the old bytes, here and below.
fn append_log(setup: &Setup, log: &Log, out: &mut Vec<u8>) -> Result<(), OutOfMemory>
    requires { IsOfTurns setup.now log.now }
    ensures ok { OnOk result (out.new.items ≡ out.old.items ++ text_of_log setup.now log.now) }
    ensures err { OnErr result (take (length out.old.items) out.new.items ≡ out.old.items) }
{
    let [first, digests @ ..] = log.digests.as_slice() else {
        return Ok(());
    };
    append_header(setup, out)?;
    append_digest(0, first, out)?;
    append_turns(setup.turns, log.turns.as_slice(), digests, out)
}

// The turns from 1 on, of which there are at most so many.
fn append_turns(
    most: u32,
    turns: &[Orders],
    digests: &[[u8; 16]],
    out: &mut Vec<u8>,
) -> Result<(), OutOfMemory>
    requires { length turns.now ≤ most }
    ensures ok { OnOk result (out.new.items ≡ out.old.items ++ flat_map ended (lines_from 1 turns.now digests.now)) }
    ensures err { OnErr result (take (length out.old.items) out.new.items ≡ out.old.items) }
{
    let mut turn: u32 = 0;
    let mut rest = turns;
    let mut later = digests;
    while let [orders, more @ ..] = rest {
        let [digest, others @ ..] = later else {
            return Ok(());
        };
        turn += 1;
        append_orders(turn, orders.as_slice(), out)?;
        append_digest(turn, digest, out)?;
        rest = more;
        later = others;
    }
    Ok(())
}

fn append_orders(turn: u32, orders: &[PlayerCommand], out: &mut Vec<u8>) -> Result<(), OutOfMemory>
    ensures ok { OnOk result (out.new.items ≡ out.old.items ++ flat_map ended (map (order_line turn) orders.now)) }
    ensures err { OnErr result (take (length out.old.items) out.new.items ≡ out.old.items) }
{
    for order in orders {
        append_order(turn, order, out)?;
    }
    Ok(())
}

fn append_order(turn: u32, order: &PlayerCommand, out: &mut Vec<u8>) -> Result<(), OutOfMemory>
    ensures ok { OnOk result (out.new.items ≡ out.old.items ++ ended (order_line turn order.now)) }
    ensures err { OnErr result (take (length out.old.items) out.new.items ≡ out.old.items) }
{
    let mut line = String::new(*out.allocator());
    push_turn_order(turn, order, &mut line)?;
    append_line(line.as_str(), out)
}

fn append_digest(turn: u32, digest: &[u8; 16], out: &mut Vec<u8>) -> Result<(), OutOfMemory>
    ensures ok { OnOk result (out.new.items ≡ out.old.items ++ ended (digest_line turn digest.now)) }
    ensures err { OnErr result (take (length out.old.items) out.new.items ≡ out.old.items) }
{
    let mut line = String::new(*out.allocator());
    push_digest_line(turn, digest, &mut line)?;
    append_line(line.as_str(), out)
}

fn append_header(setup: &Setup, out: &mut Vec<u8>) -> Result<(), OutOfMemory>
    ensures ok { OnOk result (out.new.items ≡ out.old.items ++ ended (header_line setup.now)) }
    ensures err { OnErr result (take (length out.old.items) out.new.items ≡ out.old.items) }
{
    let mut line = String::new(*out.allocator());
    push_header(setup, &mut line)?;
    append_line(line.as_str(), out)
}

fn append_line(line: &str, out: &mut Vec<u8>) -> Result<(), OutOfMemory>
    ensures ok { OnOk result (out.new.items ≡ out.old.items ++ ended line.now) }
    ensures err { OnErr result (take (length out.old.items) out.new.items ≡ out.old.items) }
{
    out.extend_from_slice(line.as_bytes())?;
    out.push(b'\n')?;
    Ok(())
}
