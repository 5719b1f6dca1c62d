//! Whether a tree has nothing beside the parts of a template and their children. The walk ends at the first node that
//! has no place.

ghost use Rattle.{sim_json.specs.Keys.{among, texts_of}, sim_traits.specs.Values.{are_known as are_known_data, are_leaves as are_leaves_data}};
ghost use Rattle.sim_traits.specs.Values.{are_none as are_none_data, has_known_parts as has_known_parts_data, is_known as is_known_data, part_named};
ghost use Rattle.sim_tree.specs.Trees.{node_of, nodes_of, under, value_of};
ghost use Rattle.std.specs.Prelude.{is_none, ◌&&◌, ◌≡◌};

use sim_json::is_among;
use sim_tree::{Child, Tree};

/// Whether the root has no value, and under it stands nothing that no part has a place for.
pub fn has_known_parts(root: &Tree<'_>) -> bool
    ensures { result ≡ has_known_parts_data (node_of root.now) }
{
    root.value.is_none() && are_known(root.children.as_slice())
}

fn are_known(children: &[Child<'_>]) -> bool
    ensures { result ≡ are_known_data (nodes_of children.now) }
{
    let mut rest = children;
    while let [child, more @ ..] = rest {
        if !is_known(child.name.as_str(), &child.tree) {
            return false;
        }
        rest = more;
    }
    true
}

fn is_known(name: &str, part: &Tree<'_>) -> bool
    ensures { result ≡ is_known_data (node_of part.now) (part_named name.now) }
{
    if name == "Health" {
        has_leaves(part, &["Max"])
    } else if name == "Resist" {
        has_leaves(part, &["Hack", "Pierce", "Crush"])
    } else if name == "Motion" {
        has_leaves(part, &["Speed"])
    } else if name == "Obstruct" {
        has_leaves(part, &["Width", "Depth"])
    } else if name == "Attack" {
        has_leaves(part, &ATTACK)
    } else if name == "Train" {
        has_leaves(part, &["Units"])
    } else {
        false
    }
}

const ATTACK: [&str; 7] = [
    "Range", "Vision", "Repeat", "Hack", "Pierce", "Crush", "Accuracy",
];

fn has_leaves(part: &Tree<'_>, names: &[&str]) -> bool
    ensures { result ≡ (is_none (value_of (node_of part.now)) && are_leaves_data (texts_of names.now) (under (node_of part.now))) }
{
    part.value.is_none() && are_leaves(part.children.as_slice(), names)
}

fn are_leaves(children: &[Child<'_>], names: &[&str]) -> bool
    ensures { result ≡ are_leaves_data (texts_of names.now) (nodes_of children.now) }
{
    let mut rest = children;
    while let [child, more @ ..] = rest {
        if !is_leaf_of(child.name.as_str(), &child.tree, names) {
            return false;
        }
        rest = more;
    }
    true
}

fn is_leaf_of(name: &str, tree: &Tree<'_>, names: &[&str]) -> bool
    ensures { result ≡ (among name.now (texts_of names.now) && are_none_data (under (node_of tree.now))) }
{
    is_among(name, names) && are_none(tree.children.as_slice())
}

#[tactic(auto, using(crate::proofs::Leaves::are_none_some))]
fn are_none(children: &[Child<'_>]) -> bool
    ensures { result ≡ are_none_data (nodes_of children.now) }
{
    match children {
        [] => true,
        _ => false,
    }
}
