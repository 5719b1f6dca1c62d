//! The library: the templates of a match by name and by number, each with its resolved tree.

ghost use Rattle.{sim_merge.specs.Libraries.is_resolved, sim_merge.specs.Libraries.IsLibrary, sim_tree.specs.Trees.node_of, std.specs.Str.bytes_eq};
ghost use Rattle.std.specs.Prelude.{◌≡◌, ◌<◌, ◌≤◌, map, length, IsTrue, slice_get, Some, string_bytes, position};

use crate::chains::place_of;
use indexmap::IndexSet;
use sim_tree::Tree;
use std::marker::Model;

/// Templates by number, which is their place in the list that they were read from: at most 256, each with its name and
/// its resolved tree.
#[derive(Drop)]
pub struct Library<'a> {
    names: IndexSet<String>,
    trees: Vec<Tree<'a>>,
}

impl<'a> Model for Library<'a> {
    ghost use Rattle.{sim_merge.specs.Libraries.{Holding, holding_code, IsLibrary}, sim_tree.specs.Trees.node_of, std.specs.Prelude.{map, string_bytes}};

    ghost Value = { Holding };

    ghost coded = { holding_code };

    ghost view = { λ l. record { names = map string_bytes l.names.keys; roots = map node_of l.trees.items } };

    ghost invariant = { λ l. IsLibrary (map string_bytes l.names.keys) (map node_of l.trees.items) };
}

impl<'a> Library<'a> {
    // The library of these names and trees.
    pub(crate) fn of(names: IndexSet<String>, trees: Vec<Tree<'a>>) -> Library<'a>
        requires { IsLibrary (map string_bytes names.keys) (map node_of trees.items) }
        ensures { result ≡ record { names = map string_bytes names.keys; roots = map node_of trees.entry.items } }
    {
        Library { names, trees }
    }

    /// The number of the template of this name.
    pub fn number_of(&self, name: &str) -> Option<u16>
        ensures { result ≡ position (bytes_eq name.now) self.now.names }
    {
        place_of(&self.names, name).map(|number| number as u16)
    }

    /// How many templates there are.
    pub fn count(&self) -> u16
        ensures names { result ≡ length self.now.names }
        ensures roots { result ≡ length self.now.roots }
        ensures few { result ≤ 256 }
    {
        self.trees.len() as u16
    }

    /// The resolved tree of the template of this number.
    pub fn tree(&self, number: u16) -> &Tree<'a>
        requires { number < length self.now.names }
        ensures root { Some (node_of result.now) ≡ slice_get self.now.roots number }
        ensures resolved { IsTrue (is_resolved (node_of result.now)) }
    {
        &self.trees[number as usize]
    }
}
