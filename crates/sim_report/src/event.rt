//! What a session prints of its steps, a line for each event.

ghost use Rattle.sim_report.specs.{Appending.{Appends, AppendsInParts}, Lines.{client_text, event_line, notice_line, number_line, turn_line}};
ghost use Rattle.std.specs.Prelude.{◌++◌};

use crate::line::{append_number, append_turn, report_kind};
use sim_base::{Event, OutOfMemory};

/// Appends the line of an event, or leaves the text as it was.
pub fn push_event(event: &Event, out: &mut String) -> Result<(), OutOfMemory>
    ensures { Appends result out.old out.new (event_line event.now) }
{
    let length = out.len();
    match append_event(event, out) {
        Ok(()) => Ok(()),
        Err(stop) => {
            out.truncate(length);
            Err(stop)
        }
    }
}

// After an error a part of the line may stand behind the old text, here and below.
fn append_event(event: &Event, out: &mut String) -> Result<(), OutOfMemory>
    ensures { AppendsInParts result out.old out.new (event_line event.now) }
{
    match event {
        Event::Start { client, digest } => append_state(*client, "start", 0, digest, out),
        Event::Order { client, turn } => append_counted(*client, "order", *turn, out),
        Event::Play {
            client,
            turn,
            digest,
        } => append_state(*client, "play", *turn, digest, out),
        Event::Join { client } => append_word(*client, "join\n", out),
        Event::Load {
            client,
            turn,
            digest,
        } => append_state(*client, "load", *turn, digest, out),
        Event::Refused { client, code } => {
            append_counted(*client, "refused", u32::from(*code), out)
        }
        Event::Cut { client } => append_word(*client, "cut\n", out),
        Event::Bend {
            client,
            turn,
            digest,
        } => append_state(*client, "bend", *turn, digest, out),
        Event::Notice { turn, client } => append_notice(*turn, *client, out),
    }
}

// A client, a word, and the turn and digest of the state to which the client came.
fn append_state(
    client: u8,
    word: &str,
    turn: u32,
    digest: &[u8; 16],
    out: &mut String,
) -> Result<(), OutOfMemory>
    ensures { AppendsInParts result out.old out.new (client_text client ++ turn_line word.now turn digest.now) }
{
    append_client(client, out)?;
    append_turn(word, turn, digest, out)
}

// A client, a word and a number.
fn append_counted(client: u8, word: &str, number: u32, out: &mut String) -> Result<(), OutOfMemory>
    ensures { AppendsInParts result out.old out.new (client_text client ++ number_line word.now number) }
{
    append_client(client, out)?;
    out.push_str(word)?;
    append_number(u64::from(number), out)?;
    out.push_str("\n")?;
    Ok(())
}

// A client and a word with the end of the line.
fn append_word(client: u8, word: &str, out: &mut String) -> Result<(), OutOfMemory>
    ensures { AppendsInParts result out.old out.new (client_text client ++ word.now) }
{
    append_client(client, out)?;
    out.push_str(word)?;
    Ok(())
}

fn append_client(client: u8, out: &mut String) -> Result<(), OutOfMemory>
    ensures { AppendsInParts result out.old out.new (client_text client) }
{
    out.push_str("client")?;
    append_number(u64::from(client), out)?;
    out.push_str(" ")?;
    Ok(())
}

fn append_notice(turn: u32, client: u8, out: &mut String) -> Result<(), OutOfMemory>
    ensures { AppendsInParts result out.old out.new (notice_line turn client) }
{
    out.push_str("notice")?;
    append_number(u64::from(turn), out)?;
    append_number(u64::from(client), out)?;
    out.push_str(report_kind(turn))?;
    out.push_str("\n")?;
    Ok(())
}
