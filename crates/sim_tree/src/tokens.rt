//! The words of a text: lists of names stand in a tree as one text with spaces between them.

ghost use Rattle.std.specs.Prelude.{◌≡◌, [], ◌∷◌, ◌++◌, IfOk, OnOk, filter};
ghost use Rattle.sim_tree.specs.Tokens.{is_word as is_word_of_bytes, tokens_of};

use crate::text::Text;
use sim_base::{Global, Items, OutOfMemory};

/// A list of texts.
pub type Names<'a> = Items<Text<'a>>;

/// The parts of a text between spaces, without the empty ones, which the text lends.
pub fn tokens_in<'a>(alloc: Global, text: &'a str) -> Result<Names<'a>, OutOfMemory>
    ensures { IfOk result (λ names. names ≡ tokens_of text.now) }
{
    let mut found = Names::new(alloc);
    for part in text.split(' ') {
        add_word(&mut found, part)?;
    }
    Ok(found)
}

// Adds a part that is not empty.
fn add_word<'a>(found: &mut Names<'a>, part: &'a str) -> Result<(), OutOfMemory>
    ensures { OnOk result (found.new ≡ found.old ++ filter is_word_of_bytes (part.now ∷ [])) }
{
    if is_word(part) {
        found.push(Text::lent(part))?;
    }
    Ok(())
}

fn is_word(part: &str) -> bool
    ensures { result ≡ is_word_of_bytes part.now }
{
    !part.is_empty()
}
