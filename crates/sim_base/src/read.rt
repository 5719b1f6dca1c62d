//! Reads a number from its text: an optional minus sign, one to ten digits, and perhaps a point and one to six digits
//! more. Digits past what a raw can hold are rounded down in magnitude.

ghost use Rattle.std.specs.{List.list_all, Str.Parse.digits_value_after};
ghost use Rattle.std.specs.Prelude.{◌≡◌, ◌+◌, ◌*◌, ◌^◌, ◌<◌, ◌≤◌, true, false, length, pos, neg_ℤ, IfSome, if◌then◌else◌, MatchOption, position};
ghost use Rattle.sim_base.specs.NumberText.{are_digits, in_range, is_digit, is_point, magnitude_of, number_of, raw_of_digits};

use crate::fixed::Fixed;

impl Fixed {
    /// The number that a text spells, or None where it spells none or one that is out of range. `docs/FORMATS.md`
    /// has the spelling.
    pub fn read_text(text: &str) -> Option<Fixed>
        ensures { result ≡ number_of text.now }
    {
        let bytes = text.as_bytes();
        match bytes.strip_prefix(b"-") {
            Some(rest) => signed(true, magnitude(rest)?),
            None => signed(false, magnitude(bytes)?),
        }
    }
}

// The number of a sign and a magnitude, where it is in range.
fn signed(minus: bool, magnitude: u64) -> Option<Fixed>
    requires { magnitude < 2 ^ 62 }
    ensures { result ≡ in_range (if minus then neg_ℤ (pos magnitude) else pos magnitude) }
{
    let magnitude = magnitude as i64;
    let raw = if minus { -magnitude } else { magnitude };
    i32::try_from(raw).ok().map(Fixed::from_raw)
}

// The raw of a text without a sign.
fn magnitude(text: &[u8]) -> Option<u64>
    ensures value { result ≡ magnitude_of text.now }
    ensures small { IfSome result (λ m. m < 2 ^ 62) }
{
    match point_at(text) {
        None => Some(raw_of(digits(10, text)?, &[])),
        Some(at) => Some(raw_of(digits(10, &text[..at])?, digits(6, &text[at + 1..])?)),
    }
}

// The place of the first point.
fn point_at(text: &[u8]) -> Option<usize>
    ensures { result ≡ position is_point text.now }
{
    text.iter().position(|c| *c == b'.')
}

// The text itself, where it is digits alone, from one to so many.
fn digits(most: usize, text: &[u8]) -> Option<&[u8]>
    ensures { MatchOption result (are_digits most text.now ≡ false)
        (λ found. (are_digits most text.now ≡ true) × (found.now ≡ text.now)) }
{
    if 1 <= text.len() && text.len() <= most && all_digits(text) {
        Some(text)
    } else {
        None
    }
}

fn all_digits(text: &[u8]) -> bool
    ensures { result ≡ list_all is_digit text.now }
{
    text.iter().all(|c| c.is_ascii_digit())
}

// The raw that the digits before and behind the point spell.
fn raw_of(before: &[u8], behind: &[u8]) -> u64
    requires before { are_digits 10 before.now ≡ true }
    requires behind_few { length behind.now ≤ 6 }
    requires behind { list_all is_digit behind.now ≡ true }
    ensures value { result ≡ raw_of_digits before.now behind.now }
    ensures small { result < 2 ^ 62 }
{
    let value = value_after(value_after(0, before), behind);
    let power = 10u64.pow(behind.len() as u32);
    (u128::from(value) * 65536 / u128::from(power)) as u64
}

// The number that the digits spell behind those of `n`.
fn value_after(n: u64, digits: &[u8]) -> u64
    requires room { (n + 1) * 10 ^ length digits.now ≤ 10 ^ 16 }
    requires digits { list_all is_digit digits.now ≡ true }
    ensures value { result ≡ digits_value_after 10 n digits.now }
    ensures small { result < (n + 1) * 10 ^ length digits.now }
{
    let mut value = n;
    for c in digits {
        value = value * 10 + u64::from(*c - b'0');
    }
    value
}
