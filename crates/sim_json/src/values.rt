//! Texts, lists and whole numbers of JSON. A reader answers None where the value is something else.

ghost use Rattle.{serde_json.specs.{Errors.IsMemory, Read.read, View.view}, sim_json.specs.Values.{fixed as fixed_of, four as four_of}};
ghost use Rattle.sim_json.specs.Values.{front_two as front_two_of, list_at as list_at_key, list_of as list_of_data, metres as metres_of, natural as natural_of};
ghost use Rattle.sim_json.specs.Values.{natural_at as natural_at_key, natural_in as natural_within, two as two_of, value_of as value_of_bytes};
ghost use Rattle.std.specs.{Prelude.{false, IfErr, IfOk, IfSome, IsErr, length, map, None, option_map, ◌<◌, ◌≡◌, ◌≤◌}, Str.is_utf8};

use serde_json::{Category, Error, Value};
use sim_base::{Fixed, Global, OutOfMemory};

/// The value of a text in UTF-8, or None where the bytes are none.
pub fn value_of(alloc: Global, bytes: &[u8]) -> Result<Option<Value>, OutOfMemory>
    ensures value { IfOk result (λ found. option_map view found ≡ value_of_bytes bytes.now) }
    ensures no_text { is_utf8 bytes.now ≡ false → result ≡ Ok None }
    ensures memory { IfErr result (λ fault. 0 < length bytes.now) }
{
    match std::str::from_utf8(bytes) {
        Ok(text) => value_in(alloc, text),
        Err(_) => Ok(None),
    }
}

// The value of a text.
fn value_in(alloc: Global, text: &str) -> Result<Option<Value>, OutOfMemory>
    ensures value { IfOk result (λ found. option_map view found ≡ read text.now) }
    ensures memory { IfErr result (λ fault. 0 < length text.now) }
{
    match Value::from_str(alloc, text) {
        Ok(value) => Ok(Some(value)),
        Err(error) => no_value(error),
    }
}

// What comes of a text that was not read: it has no value, or memory was refused.
fn no_value(error: Error) -> Result<Option<Value>, OutOfMemory>
    ensures memory { IsMemory error → IsErr result }
    ensures text { ¬ IsMemory error → result ≡ Ok None }
{
    match error.classify() {
        Category::Memory => Err(OutOfMemory),
        _ => Ok(None),
    }
}

/// The items of a list.
#[tactic(auto, using(crate::proofs::Texts::listed_view))]
pub fn list_of(value: &Value) -> Option<&[Value]>
    ensures { option_map (λ items. map view items.now) result ≡ list_of_data (view value.now) }
{
    match value.as_array() {
        Some(items) => Some(items.as_slice()),
        None => None,
    }
}

/// The items of the list under a key.
pub fn list_at<'v>(value: &'v Value, key: &str) -> Option<&'v [Value]>
    ensures { option_map (λ items. map view items.now) result ≡ list_at_key key.now (view value.now) }
{
    list_of(value.get(key)?)
}

/// A whole number that is not below 0.
pub fn natural(value: &Value) -> Option<u64>
    ensures { result ≡ natural_of (view value.now) }
{
    value.as_u64()
}

/// A whole number from `low` to `high`.
pub fn natural_in(value: &Value, low: u64, high: u64) -> Option<u64>
    ensures value { result ≡ natural_within low high (view value.now) }
    ensures within { IfSome result (λ n. (low ≤ n) × (n ≤ high)) }
{
    let n = natural(value)?;
    if low <= n && n <= high { Some(n) } else { None }
}

/// A whole number from `low` to `high` under a key.
pub fn natural_at(value: &Value, low: u64, high: u64, key: &str) -> Option<u64>
    ensures value { result ≡ natural_at_key low high key.now (view value.now) }
    ensures within { IfSome result (λ n. (low ≤ n) × (n ≤ high)) }
{
    natural_in(value.get(key)?, low, high)
}

/// A number with a fraction: a text that spells one, or a whole number.
pub fn fixed(value: &Value) -> Option<Fixed>
    ensures { result ≡ fixed_of (view value.now) }
{
    match value.as_str() {
        Some(text) => Fixed::read_text(text),
        None => metres(value.as_i64()?),
    }
}

fn metres(whole: i64) -> Option<Fixed>
    ensures { result ≡ metres_of whole }
{
    let whole = i16::try_from(whole).ok()?;
    Some(Fixed::from_raw(i32::from(whole) * 65_536))
}

/// The two items of a list of exactly two.
pub fn two(items: &[Value]) -> Option<(&Value, &Value)>
    ensures { option_map (λ p. (view p.0.now, view p.1.now)) result ≡ two_of (map view items.now) }
{
    match items {
        [a, b] => Some((a, b)),
        _ => None,
    }
}

/// The four items of a list of exactly four.
pub fn four(items: &[Value]) -> Option<(&Value, &Value, &Value, &Value)>
    ensures { option_map (λ p. (view p.0.now, view p.1.now, view p.2.now, view p.3.now)) result ≡ four_of (map view items.now) }
{
    match items {
        [a, b, c, d] => Some((a, b, c, d)),
        _ => None,
    }
}

/// The first two items of a list, and the others.
pub fn front_two(items: &[Value]) -> Option<(&Value, &Value, &[Value])>
    ensures { option_map (λ p. (view p.0.now, view p.1.now, map view p.2.now)) result ≡ front_two_of (map view items.now) }
{
    match items {
        [a, b, rest @ ..] => Some((a, b, rest)),
        _ => None,
    }
}
