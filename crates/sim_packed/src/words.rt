//! The words that bytes spell: each is ended by a byte 0.

ghost use Rattle.std.specs.Prelude.{[], IfOk, map, option_map, string_bytes, ◌≡◌};
ghost use Rattle.sim_packed.specs.Files.{spelled_words, text_in, words_in};

use sim_base::{Global, OutOfMemory};

/// The words of a command line. Where one of them is no text, or the last has no end, there are none, which no command has either.
pub fn words_from(alloc: Global, bytes: &[u8]) -> Result<Vec<String>, OutOfMemory>
    ensures { IfOk result (λ words. map string_bytes words.items ≡ words_in bytes.now) }
{
    match all_words(alloc, bytes)? {
        Some(words) => Ok(words),
        None => Ok(Vec::new(alloc)),
    }
}

// The words, or None where the bytes spell none.
fn all_words(alloc: Global, bytes: &[u8]) -> Result<Option<Vec<String>>, OutOfMemory>
    ensures { IfOk result (λ words. option_map (λ found. map string_bytes found.items) words ≡ spelled_words bytes.now [] []) }
{
    let mut words = Vec::new(alloc);
    let mut word = Vec::new(alloc);
    let mut rest = bytes;
    while let [byte, more @ ..] = rest {
        rest = more;
        if *byte != 0 {
            word.push(*byte)?;
            continue;
        }
        let Some(text) = text_of(&word) else {
            return Ok(None);
        };
        words.push(String::from_str(alloc, text)?)?;
        word.clear();
    }
    Ok(if word.is_empty() { Some(words) } else { None })
}

/// The text that bytes are, if they are one.
pub fn text_of(bytes: &[u8]) -> Option<&str>
    ensures { option_map (λ text. text.now) result ≡ text_in bytes.now }
{
    match std::str::from_utf8(bytes) {
        Ok(text) => Some(text),
        Err(_) => None,
    }
}
