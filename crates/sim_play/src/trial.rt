//! The line of a trial, which names how it ended by one digest.

ghost use Rattle.std.specs.Prelude.{◌≡◌, ◌++◌, OnOk, string_bytes};
ghost use Rattle.sim_play.specs.{Common.IsValid, Common.line_end, Common.spaced_number, Lines.trial_line};

use sim_base::{OutOfMemory, Setup, State, push_decimal};
use sim_bytes::push_hex;
use sim_codec::digest;

/// Appends the line of a trial that was made of these numbers, its seed, soldiers and turns, and ended in this state. After an
/// error a part of it may stand behind the old text.
pub fn push_trial(
    numbers: (u32, u32, u32),
    setup: &Setup,
    state: &State,
    out: &mut String,
) -> Result<(), OutOfMemory>
    requires { IsValid setup.now state.now }
    ensures { OnOk result (string_bytes out.new ≡ string_bytes out.old ++ trial_line numbers.0 numbers.1 numbers.2 setup.now state.now) }
{
    let (seed, units, turns) = numbers;
    out.push_str("trial")?;
    push_number(u64::from(seed), out)?;
    push_number(u64::from(units), out)?;
    push_number(u64::from(turns), out)?;
    out.push_str(" alive")?;
    push_number(state.rows.as_slice().len() as u64, out)?;
    push_digest(&digest(setup, state), out)
}

fn push_number(number: u64, out: &mut String) -> Result<(), OutOfMemory>
    ensures { OnOk result (string_bytes out.new ≡ string_bytes out.old ++ spaced_number number) }
{
    out.push_str(" ")?;
    push_decimal(number, out)
}

fn push_digest(digest: &[u8; 16], out: &mut String) -> Result<(), OutOfMemory>
    ensures { OnOk result (string_bytes out.new ≡ string_bytes out.old ++ line_end digest.now) }
{
    out.push_str(" ")?;
    push_hex(out, digest.as_slice())?;
    out.push_str("\n")?;
    Ok(())
}
