//! Words and whole numbers of a text. A number is read in any spelling: which one is printed is seen later.

ghost use Rattle.std.specs.{List.list_all, List.slice_split, Prelude.IfOk, Prelude.[], Prelude.map, Prelude.option_map, Prelude.◌==◌, Prelude.◌≡◌};
ghost use Rattle.sim_base.specs.NumberText.{is_digit};
ghost use Rattle.sim_replay.specs.Logs.{behind as behind_front, first_word, ids_of as ids_of_text, natural_of, naturals_of, other_words, word_text};

use sim_base::{Ids, Items, OutOfMemory};
use std::alloc::{AllocError, Global};

/// What a line has behind this front, if it begins with it.
pub fn behind<'a>(front: &str, line: &'a [u8]) -> Option<&'a [u8]>
    ensures { option_map (λ rest. rest.now) result ≡ behind_front front.now line.now }
{
    line.strip_prefix(front.as_bytes())
}

/// The first word of a text, and what stands behind the space after it.
pub fn cut(text: &str) -> (&str, &str)
    ensures first { result.0.now ≡ first_word text.now }
    ensures others { result.1.now ≡ other_words text.now }
{
    match text.split_once(' ') {
        Some(parts) => parts,
        None => (text, ""),
    }
}

/// The number that decimal digits spell.
#[tactic(auto, unfolding(crate::specs::Logs::natural_of))]
pub fn natural(text: &str) -> Option<u32>
    ensures { result ≡ natural_of text.now }
{
    if all_digits(text) {
        text.parse().ok()
    } else {
        None
    }
}

fn all_digits(text: &str) -> bool
    ensures { result ≡ list_all is_digit text.now }
{
    text.as_bytes().iter().all(|c| c.is_ascii_digit())
}

/// The ids of a text: numbers between commas, or a dash for none.
#[tactic(auto, unfolding(crate::specs::Logs::ids_of))]
pub fn ids_of(alloc: Global, text: &str) -> Result<Option<Ids>, OutOfMemory>
    ensures { IfOk result (λ ids. ids ≡ ids_of_text text.now) }
{
    if text == "-" {
        return Ok(Some(Items::new(alloc)));
    }
    let words = words_of(alloc, text)?;
    naturals(alloc, words.as_slice())
}

// What stands between the commas of a text.
fn words_of(alloc: Global, text: &str) -> Result<Vec<&str>, AllocError>
    ensures { IfOk result (λ words. map word_text words.items ≡ slice_split (λ b. b == 44) text.now) }
{
    text.split(',').collect(alloc)
}

// The number that each word spells.
fn naturals(alloc: Global, words: &[&str]) -> Result<Option<Ids>, OutOfMemory>
    ensures { IfOk result (λ found. found ≡ naturals_of (map word_text words.now)) }
{
    let mut found = Vec::new(alloc);
    let mut rest = words;
    while let [word, more @ ..] = rest {
        match natural(word) {
            Some(number) => found.push(number)?,
            None => return Ok(None),
        }
        rest = more;
    }
    Ok(Some(Ids::from_items(found)))
}
