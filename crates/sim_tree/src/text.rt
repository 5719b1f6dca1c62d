//! The texts of a tree, its values and the names of its children. Contracts see them as their bytes, so that a tree can be
//! compared with what a definition says of it. What stands in a match file is lent by the JSON that was read of it.

ghost use Rattle.std.specs.Prelude.{◌≡◌, IfOk, string_bytes};

use sim_base::{Global, OutOfMemory};
use std::borrow::CowStr;
use std::marker::Model;

/// A text that is lent or in memory of its own, which contracts see as its bytes.
#[derive(Debug, Drop)]
pub struct Text<'a> {
    text: CowStr<'a, Global>,
}

impl<'a> Model for Text<'a> {
    ghost use Rattle.{std.specs.Cow.cow_str_bytes, std.specs.Prelude.ℕ, std.specs.Prelude.List};

    ghost Value = { List ℕ };

    ghost view = { λ text. cow_str_bytes text.text };
}

impl<'a> Text<'a> {
    /// The text that is lent here.
    pub fn lent(text: &'a str) -> Text<'a>
        ensures { result ≡ text.now }
    {
        Text {
            text: CowStr::Borrowed(text),
        }
    }

    /// The text of a string, in the room that it had.
    pub fn of_string(text: String) -> Text<'a>
        ensures { result ≡ string_bytes text }
    {
        Text {
            text: CowStr::Owned(text),
        }
    }

    /// The same text: one that is lent is lent once more, and takes no memory.
    pub fn copy(&self) -> Result<Text<'a>, OutOfMemory>
        ensures { IfOk result (λ copied. copied ≡ self.now) }
    {
        Ok(Text {
            text: self.text.clone()?,
        })
    }

    /// Lends the text.
    pub fn as_str(&self) -> &str
        ensures { result.now ≡ self.now }
    {
        self.text.as_str()
    }
}
