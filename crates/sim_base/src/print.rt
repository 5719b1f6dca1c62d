//! Prints a number: a minus sign where it is negative, the whole metres, and where it is not whole a point and five
//! digits, rounded up in magnitude, so that reading them gives the same number again.

ghost use Rattle.std.specs.Prelude.{◌≡◌, ◌<◌, ◌++◌, length, take, drop, OnOk, OnErr, Some, string_bytes, codes, decimal};
ghost use Rattle.sim_base.specs.NumberText.{five_digits, magnitude_text, number_of, text_of};

use crate::decimal::push_digits;
use crate::{Fixed, OutOfMemory};

impl Fixed {
    /// Appends the number as text, or leaves the text as it was. `docs/FORMATS.md` has the spelling.
    pub fn push_text(self, out: &mut String) -> Result<(), OutOfMemory>
        ensures appended { OnOk result (string_bytes out.new ≡ string_bytes out.old ++ text_of self) }
        ensures err { OnErr result (string_bytes out.new ≡ string_bytes out.old) }
        ensures reads_back { number_of (text_of self) ≡ Some self }
    {
        let length = out.len();
        match push_signed(out, self) {
            Ok(()) => Ok(()),
            Err(stop) => {
                out.truncate(length);
                Err(stop)
            }
        }
    }
}

// After an error a part of the number may stand behind the old text, here and below.
fn push_signed(out: &mut String, number: Fixed) -> Result<(), OutOfMemory>
    ensures ok { OnOk result (string_bytes out.new ≡ string_bytes out.old ++ text_of number) }
    ensures err { OnErr result (take (length (string_bytes out.old)) (string_bytes out.new) ≡ string_bytes out.old) }
{
    if number.raw() < 0 {
        out.push_str("-")?;
    }
    push_magnitude(out, number.raw().unsigned_abs())
}

// The whole metres, and where there is more a point and five digits.
fn push_magnitude(out: &mut String, n: u32) -> Result<(), OutOfMemory>
    ensures ok { OnOk result (string_bytes out.new ≡ string_bytes out.old ++ magnitude_text n) }
    ensures err { OnErr result (take (length (string_bytes out.old)) (string_bytes out.new) ≡ string_bytes out.old) }
{
    push_digits(out, u64::from(n / 65536))?;
    let fraction = n % 65536;
    if fraction != 0 {
        let parts = (u64::from(fraction) * 100000).div_ceil(65536) as u32;
        out.push_str(".")?;
        push_five(out, parts)?;
    }
    Ok(())
}

// Five digits, with leading zeros.
fn push_five(out: &mut String, n: u32) -> Result<(), OutOfMemory>
    requires { n < 100000 }
    ensures ok { OnOk result (string_bytes out.new ≡ string_bytes out.old ++ five_digits n) }
    ensures err { OnErr result (take (length (string_bytes out.old)) (string_bytes out.new) ≡ string_bytes out.old) }
{
    out.push_str(zeros_before(n))?;
    push_digits(out, u64::from(n))
}

// The zeros that five digits have before this number.
fn zeros_before(n: u32) -> &'static str
    requires { n < 100000 }
    ensures { result.now ≡ drop (length (decimal n)) (codes "00000") }
{
    if n < 10 {
        "0000"
    } else if n < 100 {
        "000"
    } else if n < 1000 {
        "00"
    } else if n < 10000 {
        "0"
    } else {
        ""
    }
}
