//! The comma between two pieces of a list.

ghost use Rattle.std.specs.Prelude.{OnOk, string_bytes, ◌++◌, ◌≡◌};
ghost use Rattle.sim_trial.specs.Trial.{comma_after};

use sim_base::OutOfMemory;

// A comma, where a piece stands before.
pub(crate) fn push_comma(begun: bool, text: &mut String) -> Result<(), OutOfMemory>
    ensures { OnOk result (string_bytes text.new ≡ string_bytes text.old ++ comma_after begun) }
{
    if begun {
        text.push_str(",")?;
    }
    Ok(())
}
