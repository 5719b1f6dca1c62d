//! The line of what a client has come to.

ghost use Rattle.{sim_report.specs.Appending.Appends, sim_session.specs.Endings.end_line};
ghost use Rattle.std.specs.Prelude.{◌++◌, ◌≡◌, OnOk, string_bytes};

use sim_base::OutOfMemory;
use sim_report::push_turn;

/// What a client has come to: it is off, waits for a state, or stands at a turn with a state of this digest.
#[derive(Clone, Copy, Debug, PartialEq, Eq)]
pub enum End {
    Off,
    Joining,
    On { turn: u32, digest: [u8; 16] },
}

/// Appends the line of a client and of what it has come to, or leaves the text as it was.
pub fn push_end(client: u8, end: &End, out: &mut String) -> Result<(), OutOfMemory>
    ensures { Appends result out.old out.new (end_line client end.now) }
{
    let mut line = String::new(*out.allocator());
    write_end(client, end, &mut line)?;
    out.push_str(line.as_str())?;
    Ok(())
}

// The line is written as a text of its own, of which nothing is said after an error.
fn write_end(client: u8, end: &End, line: &mut String) -> Result<(), OutOfMemory>
    ensures { OnOk result (string_bytes line.new ≡ string_bytes line.old ++ end_line client end.now) }
{
    write!(line, "end {client} ")?;
    match end {
        End::Off => line.push_str("off\n")?,
        End::Joining => line.push_str("joining\n")?,
        End::On { turn, digest } => push_turn("on", *turn, digest, line)?,
    }
    Ok(())
}
