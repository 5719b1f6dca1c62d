//! Hexadecimal text: two digits a byte, in lower case alone, so that bytes have one text.

ghost use Rattle.{hex.specs.Hex.{decode_of, encode_lower}, sim_bytes.specs.Hex.{is_digit, IsHex}, std.specs.List.list_all};
ghost use Rattle.std.specs.{Prelude.{IfErr, IfOk, IfSome, IsSome, IsTrue, length, None, Ok, OnErr, OnOk, ◌++◌, ◌<◌, ◌↔◌, ◌≡◌}, String.string_bytes};

use sim_base::{Global, OutOfMemory};

/// Appends two digits for each byte, or leaves the text as it was.
pub fn push_hex(out: &mut String, bytes: &[u8]) -> Result<(), OutOfMemory>
    ensures ok { OnOk result (string_bytes out.new ≡ string_bytes out.old ++ encode_lower bytes.now) }
    ensures err { OnErr result (string_bytes out.new ≡ string_bytes out.old) }
{
    let text = hex::encode(*out.allocator(), bytes)?;
    out.push_str(text.as_str())?;
    Ok(())
}

fn is_digit_byte(byte: u8) -> bool
    ensures { result ≡ is_digit byte }
{
    (48 <= byte && byte <= 57) || (97 <= byte && byte <= 102)
}

fn are_digits(bytes: &[u8]) -> bool
    ensures { result ≡ list_all is_digit bytes.now }
{
    bytes.iter().all(|byte| is_digit_byte(*byte))
}

fn is_hex(text: &str) -> bool
    ensures { IsTrue result ↔ IsHex text.now }
{
    text.len() % 2 == 0 && are_digits(text.as_bytes())
}

/// The bytes of a text of pairs of digits, or None where it is none.
pub fn read_hex(alloc: Global, text: &str) -> Result<Option<Vec<u8>>, OutOfMemory>
    ensures found { IfOk result (λ found. IsSome found ↔ IsHex text.now) }
    ensures no_hex { ¬ IsHex text.now → result ≡ Ok None }
    ensures value { IfOk result (λ found. IfSome found (λ bytes. decode_of text.now ≡ Ok bytes.items)) }
    ensures memory { IfErr result (λ fault. 0 < length text.now) }
{
    if !is_hex(text) {
        return Ok(None);
    }
    if text.is_empty() {
        return Ok(Some(Vec::new(alloc)));
    }
    // pairs of digits are refused for want of memory alone
    match hex::decode(alloc, text) {
        Ok(bytes) => Ok(Some(bytes)),
        Err(_) => Err(OutOfMemory),
    }
}
