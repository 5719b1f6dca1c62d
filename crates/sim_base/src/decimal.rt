//! Decimal numbers, appended to a text. The lines that the program prints are made of them and of words, so that no
//! number is made as a text of its own.

ghost use Rattle.std.specs.Prelude.{◌≡◌, ◌+◌, ◌<◌, [], ◌∷◌, ◌++◌, length, take, OnOk, OnErr, string_bytes, decimal};

use crate::memory::OutOfMemory;

/// Appends the number in decimal digits without leading zeros, or leaves the text as it was.
pub fn push_decimal(number: u64, out: &mut String) -> Result<(), OutOfMemory>
    ensures ok { OnOk result (string_bytes out.new ≡ string_bytes out.old ++ decimal number) }
    ensures err { OnErr result (string_bytes out.new ≡ string_bytes out.old) }
{
    let length = out.len();
    match push_digits(out, number) {
        Ok(()) => Ok(()),
        Err(stop) => {
            out.truncate(length);
            Err(stop)
        }
    }
}

// After an error a part of the number may stand behind the old text.
pub(crate) fn push_digits(out: &mut String, n: u64) -> Result<(), OutOfMemory>
    ensures ok { OnOk result (string_bytes out.new ≡ string_bytes out.old ++ decimal n) }
    ensures err { OnErr result (take (length (string_bytes out.old)) (string_bytes out.new) ≡ string_bytes out.old) }
{
    if n < 10 {
        return push_digit(out, n);
    }
    push_digits(out, n / 10)?;
    push_digit(out, n % 10)
}

fn push_digit(out: &mut String, digit: u64) -> Result<(), OutOfMemory>
    requires { digit < 10 }
    ensures ok { OnOk result (string_bytes out.new ≡ string_bytes out.old ++ (48 + digit) ∷ []) }
    ensures err { OnErr result (string_bytes out.new ≡ string_bytes out.old) }
{
    out.push(char::from(48 + digit as u8))?;
    Ok(())
}
