//! What stands at a path of a tree: a value as a text, as a number or as words.

ghost use Rattle.std.specs.Prelude.{[], IfOk, option_map, ◌≡◌};
ghost use Rattle.sim_tree.specs.{Tokens.tokens_in as tokens_in_value, Trees.node_of, Trees.value_of, Walks.number_at, Walks.value_at};

use crate::{Names, Tree, tokens_in};
use sim_base::{Fixed, Global, Name, OutOfMemory};

impl<'a> Tree<'a> {
    /// The value at the path, if one stands there.
    pub fn at(&self, path: &[Name]) -> Option<&str>
        ensures { option_map (λ text. text.now) result ≡ value_at (node_of self.now) path.now }
    {
        match path {
            [name, rest @ ..] => self.child(name.text())?.at(rest),
            [] => self.text(),
        }
    }

    /// The number that the value at the path spells.
    pub fn number(&self, path: &[Name]) -> Option<Fixed>
        ensures { result ≡ number_at (node_of self.now) path.now }
    {
        Fixed::read_text(self.at(path)?)
    }

    /// The words of the value at the path, and none where no value stands there.
    pub fn tokens(&self, alloc: Global, path: &[Name]) -> Result<Names<'_>, OutOfMemory>
        ensures words { IfOk result (λ words. words ≡ tokens_in_value (value_at (node_of self.now) path.now)) }
        ensures none { value_at (node_of self.now) path.now ≡ None → result ≡ Ok [] }
    {
        match self.at(path) {
            Some(text) => tokens_in(alloc, text),
            None => Ok(Names::new(alloc)),
        }
    }

    // The value of the root.
    fn text(&self) -> Option<&str>
        ensures { option_map (λ text. text.now) result ≡ value_of (node_of self.now) }
    {
        match &self.value {
            Some(text) => Some(text.as_str()),
            None => None,
        }
    }
}
