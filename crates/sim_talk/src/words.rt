//! Lines in words, as one types them by hand: `play 1`, or `order 1 walk 2,3 to 6.5 2.5`. They become the list of JSON that says the
//! same. Words that say nothing become a line that is refused.

use std::alloc::{AllocError, Global};

/// The list of JSON that a line of words says: numbers stand as they are, ids between commas as a list, and each other word as a text.
/// The words `to`, `on` and `at` only make it readable.
pub fn json_of(alloc: Global, line: &[u8]) -> Result<Vec<u8>, AllocError> {
    let mut json = Vec::new(alloc);
    let mut has_ids = false;
    let mut words = 0u64;
    json.push(b'[')?;
    for word in line.split(|byte| *byte == b' ') {
        if is_filling(word) {
            continue;
        }
        if words > 0 {
            json.push(b',')?;
        }
        if words == 3 && has_ids {
            push_ids(&mut json, word)?;
        } else {
            push_word(&mut json, word)?;
        }
        if words == 2 {
            has_ids = takes_ids(word);
        }
        words = words.saturating_add(1);
    }
    json.push(b']')?;
    Ok(json)
}

// A word that is there to be read alone.
fn is_filling(word: &[u8]) -> bool {
    matches!(word, b"" | b"to" | b"on" | b"at")
}

// A kind of command that names entities.
fn takes_ids(word: &[u8]) -> bool {
    matches!(word, b"walk" | b"stop" | b"attack" | b"delete")
}

// A number as it is, and any other word as a text.
fn push_word(json: &mut Vec<u8>, word: &[u8]) -> Result<(), AllocError> {
    if word.iter().all(|byte| byte.is_ascii_digit()) {
        return json.extend_from_slice(word);
    }
    json.push(b'"')?;
    json.extend_from_slice(word)?;
    json.push(b'"')?;
    Ok(())
}

// Ids between commas as a list, and a dash as none.
fn push_ids(json: &mut Vec<u8>, word: &[u8]) -> Result<(), AllocError> {
    json.push(b'[')?;
    if !matches!(word, b"-") {
        json.extend_from_slice(word)?;
    }
    json.push(b']')?;
    Ok(())
}
