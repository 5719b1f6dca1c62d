//! The lines of a log, each printed without the line feed at its end.

ghost use Rattle.std.specs.Prelude.{decimal, OnOk, string_bytes, ◌++◌, ◌≡◌};
ghost use Rattle.sim_replay.specs.Logs.{digest_front, digest_line, header_line, order_front};

use sim_base::{OutOfMemory, Setup, push_decimal};
use sim_bytes::push_hex;

/// Appends the line that names the match. After an error a part of the line may stand behind the old text, here and below.
pub fn push_header(setup: &Setup, out: &mut String) -> Result<(), OutOfMemory>
    ensures { OnOk result (string_bytes out.new ≡ string_bytes out.old ++ header_line setup.now) }
{
    out.push_str("simlog 1 ")?;
    push_hex(out, setup.id.as_slice())
}

/// Appends what the line of each command of a turn begins with.
pub fn push_order_front(turn: u32, out: &mut String) -> Result<(), OutOfMemory>
    ensures { OnOk result (string_bytes out.new ≡ string_bytes out.old ++ order_front turn) }
{
    push_number("command turn ", u64::from(turn), out)?;
    out.push_str(" player ")?;
    Ok(())
}

/// Appends what the line of a turn's end begins with.
pub fn push_digest_front(turn: u32, out: &mut String) -> Result<(), OutOfMemory>
    ensures { OnOk result (string_bytes out.new ≡ string_bytes out.old ++ digest_front turn) }
{
    push_number("turn ", u64::from(turn), out)?;
    out.push_str(" ")?;
    Ok(())
}

// A word and a number.
fn push_number(word: &str, number: u64, out: &mut String) -> Result<(), OutOfMemory>
    ensures { OnOk result (string_bytes out.new ≡ string_bytes out.old ++ (word.now ++ decimal number)) }
{
    out.push_str(word)?;
    push_decimal(number, out)
}

/// Appends the line of a turn's end.
pub fn push_digest_line(turn: u32, digest: &[u8; 16], out: &mut String) -> Result<(), OutOfMemory>
    ensures { OnOk result (string_bytes out.new ≡ string_bytes out.old ++ digest_line turn digest.now) }
{
    push_digest_front(turn, out)?;
    push_hex(out, digest.as_slice())
}
