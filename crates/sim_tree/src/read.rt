//! A tree read from JSON: the three refusals in their order, one walk each.

ghost use Rattle.{serde_json.specs.View.view, sim_tree.specs.{Nodes.{early_tree_fault, tree_in, TreeMeets}, Trees.{is_sound, levels, node_of}}};
ghost use Rattle.std.specs.Prelude.{IfOk, IfSome, true, ◌≡◌, ◌≤◌};

use crate::nodes::read_node;
use crate::walks::{has_float, lies_beyond};
use crate::{Tree, TreeFault};
use serde_json::Value;
use std::alloc::Global;

impl<'a> Tree<'a> {
    /// The tree that a value is, or the first refusal that applies. `docs/FORMATS.md` has the form. The value lends its texts.
    pub fn from_json(alloc: Global, value: &'a Value) -> Result<Tree<'a>, TreeFault>
        ensures tree { TreeMeets result (tree_in (view value.now)) }
        ensures early { IfSome (early_tree_fault (view value.now)) (λ fault. result ≡ Err fault) }
        ensures sound { IfOk result (λ tree. is_sound (node_of tree) ≡ true) }
        ensures levels { IfOk result (λ tree. levels (node_of tree) ≤ 32) }
    {
        if lies_beyond(value, 32) {
            return Err(TreeFault::TooDeep);
        }
        if has_float(value) {
            return Err(TreeFault::NotWhole);
        }
        read_node(alloc, value)
    }
}
