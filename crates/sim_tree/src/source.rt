//! The source of a template: what a match file says of it before its parent's tree is taken into account.

ghost use Rattle.std.specs.Prelude.{codes, false, IfOk, IfSome, None, option_and_then, true, ◌≡◌, ◌≤◌};
ghost use Rattle.sim_tree.specs.Nodes.{are_root_members, begin_root, children_in, ChildrenMeet, early_source_fault, is_root_key as is_root_key_bytes, kind_of};
ghost use Rattle.sim_tree.specs.Nodes.{name_in as name_in_data, of_kind, origin_in, parent_in as parent_in_data, root_in as root_in_members, source_in};
ghost use Rattle.sim_tree.specs.Trees.{are_sound, is_sound, levels, mark_of, node_of, nodes_of, value_of};
ghost use Rattle.{serde_json.specs.Find.get, serde_json.specs.View.members_view, serde_json.specs.View.view, sim_tree.specs.Nodes.SourceMeets};

use crate::fault::TreeFault;
use crate::leaves::is_child_key;
use crate::names::is_name;
use crate::nodes::read_node;
use crate::text::Text;
use crate::tree::{Child, Tree, push_child};
use crate::walks::{has_float, lies_beyond};
use serde_json::{Map, Value};
use sim_base::{Global, Name, OutOfMemory};

/// A template as it is described: its name, its parent's name, if it has a parent, and the tree that is to be laid over
/// the parent's.
#[derive(Debug, Drop)]
pub struct Source<'a> {
    pub name: Name,
    pub parent: Option<Name>,
    pub tree: Tree<'a>,
}

impl<'a> Source<'a> {
    /// The source that a value is, or the first refusal that applies. Its tree's root has no mark and no value.
    /// The value lends the texts of the tree.
    #[tactic(auto, unfolding(crate::specs::Nodes::source_in))]
    pub fn from_json(alloc: Global, value: &'a Value) -> Result<Source<'a>, TreeFault>
        ensures source { SourceMeets result (source_in (view value.now)) }
        ensures early { IfSome (early_source_fault (view value.now)) (λ fault. result ≡ Err fault) }
        ensures sound { IfOk result (λ source. is_sound (node_of source.tree) ≡ true) }
        ensures levels { IfOk result (λ source. levels (node_of source.tree) ≤ 32) }
        ensures unmarked { IfOk result (λ source. mark_of (node_of source.tree) ≡ None) }
        ensures valueless { IfOk result (λ source. value_of (node_of source.tree) ≡ None) }
    {
        if lies_beyond(value, 32) {
            return Err(TreeFault::TooDeep);
        }
        if has_float(value) {
            return Err(TreeFault::NotWhole);
        }
        read_source(alloc, value)
    }
}

fn read_source<'a>(alloc: Global, value: &'a Value) -> Result<Source<'a>, TreeFault>
    ensures source { SourceMeets result (kind_of (origin_in (view value.now))) }
    ensures no_name { option_and_then name_in_data (get (codes "@name") (view value.now)) ≡ None → result ≡ Err TreeFault.WrongKind }
    ensures sound { IfOk result (λ source. is_sound (node_of source.tree) ≡ true) }
{
    let Some(name) = name_at(alloc, value)? else {
        return Err(TreeFault::WrongKind);
    };
    let Some(parent) = parent_at(alloc, value)? else {
        return Err(TreeFault::WrongKind);
    };
    let Some(members) = value.as_object() else {
        return Err(TreeFault::WrongKind);
    };
    read_root(alloc, name, parent, members)
}

fn read_root<'a>(
    alloc: Global,
    name: Name,
    parent: Option<Name>,
    members: &'a Map<String, Value>,
) -> Result<Source<'a>, TreeFault>
    ensures source { SourceMeets result (kind_of (root_in_members name parent (members_view members.now.entries))) }
    ensures early { begin_root (members_view members.now.entries) ≡ false → result ≡ Err TreeFault.WrongKind }
    ensures sound { IfOk result (λ source. is_sound (node_of source.tree) ≡ true) }
{
    let children = root_children(alloc, members)?;
    Ok(Source {
        name,
        parent,
        tree: Tree {
            value: None,
            mark: None,
            children,
        },
    })
}

// The children of a root, beside which there are its names alone.
fn root_children<'a>(
    alloc: Global,
    members: &'a Map<String, Value>,
) -> Result<Vec<Child<'a>>, TreeFault>
    ensures children { ChildrenMeet result (of_kind (are_root_members (members_view members.now.entries)) (children_in (members_view members.now.entries))) }
    ensures early { begin_root (members_view members.now.entries) ≡ false → result ≡ Err TreeFault.WrongKind }
    ensures sound { IfOk result (λ children. are_sound (nodes_of children.items) ≡ true) }
{
    let mut found = Vec::new(alloc);
    for (key, value) in members.iter() {
        if is_root_key(key) {
            continue;
        }
        if !is_child_key(key) {
            return Err(TreeFault::WrongKind);
        }
        if !is_name(key) {
            return Err(TreeFault::WrongKind);
        }
        let tree = read_node(alloc, value)?;
        push_child(&mut found, Text::lent(key), tree)?;
    }
    Ok(found)
}

fn is_root_key(key: &str) -> bool
    ensures { result ≡ is_root_key_bytes key.now }
{
    key == "@name" || key == "@parent"
}

fn name_at(alloc: Global, value: &Value) -> Result<Option<Name>, OutOfMemory>
    ensures name { IfOk result (λ name. name ≡ option_and_then name_in_data (get (codes "@name") (view value.now))) }
    ensures no_name { option_and_then name_in_data (get (codes "@name") (view value.now)) ≡ None → result ≡ Ok None }
{
    match value.get("@name") {
        Some(name) => name_in(alloc, name),
        None => Ok(None),
    }
}

// The parent's name, where there is one; or None where it is no name.
fn parent_at(alloc: Global, value: &Value) -> Result<Option<Option<Name>>, OutOfMemory>
    ensures parent { IfOk result (λ parent. parent ≡ parent_in_data (get (codes "@parent") (view value.now))) }
    ensures no_name { parent_in_data (get (codes "@parent") (view value.now)) ≡ None → result ≡ Ok None }
{
    match value.get("@parent") {
        Some(parent) => match name_in(alloc, parent)? {
            Some(name) => Ok(Some(Some(name))),
            None => Ok(None),
        },
        None => Ok(Some(None)),
    }
}

fn name_in(alloc: Global, value: &Value) -> Result<Option<Name>, OutOfMemory>
    ensures name { IfOk result (λ name. name ≡ name_in_data (view value.now)) }
    ensures no_name { name_in_data (view value.now) ≡ None → result ≡ Ok None }
{
    match value.as_str() {
        Some(text) => Name::of(alloc, text),
        None => Ok(None),
    }
}
