//! Names of templates, of their parts and of the children of a tree: short words of printed ASCII, which need no
//! quotes in any text of the program.

ghost use Rattle.std.specs.{List.list_all, Prelude.◌≡◌, Prelude.true, Prelude.false, Prelude.IfOk, Prelude.IsTrue, Prelude.MatchOption};
ghost use Rattle.sim_base.specs.Names.{is_name, is_name_byte};

use crate::memory::OutOfMemory;
use std::alloc::Global;
use std::marker::Model;

/// A word of 1 to 64 bytes from 0x21 to 0x7E, which contracts see as its bytes.
#[derive(Debug, Drop)]
pub struct Name {
    text: String,
}

impl Model for Name {
    ghost use Rattle.{sim_base.specs.Names.is_name, std.specs.Prelude.ℕ, std.specs.Prelude.List, std.specs.Prelude.IsTrue, std.specs.Prelude.string_bytes};

    ghost Value = { List ℕ };

    ghost view = { λ name. string_bytes name.text };

    ghost invariant = { λ name. IsTrue (is_name (string_bytes name.text)) };
}

impl Name {
    /// The name that this text is, or None where it is none.
    pub fn of(alloc: Global, text: &str) -> Result<Option<Name>, OutOfMemory>
        ensures ok { IfOk result (λ found.
            MatchOption found (is_name text.now ≡ false) (λ name. (is_name text.now ≡ true) × (name ≡ text.now))) }
        ensures no_name { is_name text.now ≡ false → result ≡ Ok None }
    {
        if !is_name_text(text.as_bytes()) {
            return Ok(None);
        }
        Ok(Some(Name {
            text: String::from_str(alloc, text)?,
        }))
    }

    /// Lends the text.
    pub fn text(&self) -> &str
        ensures bytes { result.now ≡ self.now }
        ensures is_name { IsTrue (is_name self.now) }
    {
        self.text.as_str()
    }
}

fn is_name_text(bytes: &[u8]) -> bool
    ensures { result ≡ is_name bytes.now }
{
    1 <= bytes.len() && bytes.len() <= 64 && are_name_bytes(bytes)
}

fn are_name_bytes(bytes: &[u8]) -> bool
    ensures { result ≡ list_all is_name_byte bytes.now }
{
    bytes.iter().all(|byte| byte.is_ascii_graphic())
}
