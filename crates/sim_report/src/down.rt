//! The messages of the server as text.

ghost use Rattle.sim_report.specs.{Appending.Appends, Appending.AppendsInParts, Downs.command_text, Downs.down_text, Downs.ids_text, Downs.next_id};
ghost use Rattle.sim_report.specs.{Downs.notice_text, Downs.order_text, Downs.turn_order_text, Show.point_text};
ghost use Rattle.std.specs.Prelude.{◌++◌, codes, decimal, flat_map};

use crate::line::report_kind;
use crate::show::write_point;
use sim_base::{Command, Ids, OutOfMemory, PlayerCommand, Point, push_decimal};
use sim_wire::Down;

/// Appends a message of the server, without an end of its line, or leaves the text as it was.
pub fn push_down(message: &Down, out: &mut String) -> Result<(), OutOfMemory>
    ensures { Appends result out.old out.new (down_text message.now) }
{
    let length = out.len();
    match append_down(message, out) {
        Ok(()) => Ok(()),
        Err(stop) => {
            out.truncate(length);
            Err(stop)
        }
    }
}

/// Appends what a player commands in a turn, as the message of it is told, or leaves the text as it was.
pub fn push_turn_order(
    turn: u32,
    order: &PlayerCommand,
    out: &mut String,
) -> Result<(), OutOfMemory>
    ensures { Appends result out.old out.new (turn_order_text turn order.now) }
{
    let length = out.len();
    match append_turn_order(turn, order, out) {
        Ok(()) => Ok(()),
        Err(stop) => {
            out.truncate(length);
            Err(stop)
        }
    }
}

/// Appends a message; after an error a part of it may stand behind the old text, here and below.
pub fn append_down(message: &Down, out: &mut String) -> Result<(), OutOfMemory>
    ensures { AppendsInParts result out.old out.new (down_text message.now) }
{
    match message {
        Down::Ask { client } => append_number("ask ", u64::from(*client), out),
        Down::State { done, bytes } => {
            append_number("state done ", u64::from(*done), out)?;
            append_number(" bytes ", bytes.as_slice().len() as u64, out)
        }
        Down::Command { turn, order } => append_turn_order(*turn, order, out),
        Down::Release { turn } => append_number("release ", u64::from(*turn), out),
        Down::Notice { turn, client } => append_notice(*turn, *client, out),
        Down::Refused { code } => append_number("refused ", u64::from(*code), out),
    }
}

fn append_turn_order(turn: u32, order: &PlayerCommand, out: &mut String) -> Result<(), OutOfMemory>
    ensures { AppendsInParts result out.old out.new (turn_order_text turn order.now) }
{
    append_number("command turn ", u64::from(turn), out)?;
    append_order(order, out)
}

fn append_notice(turn: u32, client: u8, out: &mut String) -> Result<(), OutOfMemory>
    ensures { AppendsInParts result out.old out.new (notice_text turn client) }
{
    append_number("notice ", u64::from(turn), out)?;
    append_number(" ", u64::from(client), out)?;
    out.push_str(report_kind(turn))?;
    Ok(())
}

/// Appends a word and a number.
pub fn append_number(word: &str, number: u64, out: &mut String) -> Result<(), OutOfMemory>
    ensures { AppendsInParts result out.old out.new (word.now ++ decimal number) }
{
    out.push_str(word)?;
    push_decimal(number, out)
}

fn append_order(order: &PlayerCommand, out: &mut String) -> Result<(), OutOfMemory>
    ensures { AppendsInParts result out.old out.new (order_text order.now) }
{
    append_number(" player ", u64::from(order.player), out)?;
    append_spaced(&order.command, out)
}

// A space and a command.
fn append_spaced(command: &Command, out: &mut String) -> Result<(), OutOfMemory>
    ensures { AppendsInParts result out.old out.new (codes " " ++ command_text command.now) }
{
    out.push_str(" ")?;
    append_command(command, out)
}

fn append_command(command: &Command, out: &mut String) -> Result<(), OutOfMemory>
    ensures { AppendsInParts result out.old out.new (command_text command.now) }
{
    match command {
        Command::Walk { ids, to } => {
            append_ids("walk ", ids, out)?;
            append_point(" to ", *to, out)
        }
        Command::Stop { ids } => append_ids("stop ", ids, out),
        Command::Attack { ids, target } => {
            append_ids("attack ", ids, out)?;
            append_number(" on ", u64::from(*target), out)
        }
        Command::Delete { ids } => append_ids("delete ", ids, out),
        Command::Place { template, at } => {
            append_number("place ", u64::from(*template), out)?;
            append_point(" at ", *at, out)
        }
        Command::Train { building, template } => {
            append_number("train ", u64::from(*building), out)?;
            append_number(" ", u64::from(*template), out)
        }
        Command::Resign => {
            out.push_str("resign")?;
            Ok(())
        }
    }
}

// A word and both coordinates.
fn append_point(word: &str, point: Point, out: &mut String) -> Result<(), OutOfMemory>
    ensures { AppendsInParts result out.old out.new (word.now ++ point_text point) }
{
    out.push_str(word)?;
    write_point(point, out)
}

/// A word and ids.
pub fn append_ids(word: &str, ids: &Ids, out: &mut String) -> Result<(), OutOfMemory>
    ensures { AppendsInParts result out.old out.new (word.now ++ ids_text ids.now) }
{
    match ids.as_slice() {
        [] => {
            out.push_str(word)?;
            out.push_str("-")?;
            Ok(())
        }
        [first, others @ ..] => {
            append_number(word, u64::from(*first), out)?;
            append_more(others, out)
        }
    }
}

// Each id behind a comma.
fn append_more(ids: &[u32], out: &mut String) -> Result<(), OutOfMemory>
    ensures { AppendsInParts result out.old out.new (flat_map next_id ids.now) }
{
    for id in ids {
        append_number(",", u64::from(*id), out)?;
    }
    Ok(())
}
