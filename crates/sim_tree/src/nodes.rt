//! A node of a tree, read from JSON, and those below it. That the value has few levels and whole numbers alone was seen
//! before.

ghost use Rattle.serde_json.specs.View.{members_view, view};
ghost use Rattle.sim_tree.specs.{declared.tree.TreeMark.TheVariants.{Add, Mul, Tokens}, Nodes.{are_members, begin_well, children_in, ChildrenMeet, has_kind}};
ghost use Rattle.sim_tree.specs.Nodes.{is_node, leaf_text as leaf_text_data, mark_in as mark_in_data, marks_in, node_in, of_kind, TreeMeets};
ghost use Rattle.sim_tree.specs.Trees.{are_sound, bears as bears_parts, is_sound, no_children, node, node_of, nodes_of};
ghost use Rattle.std.specs.Prelude.{false, IfOk, is_some, nat_le, None, Some, true, ◌&&◌, ◌≡◌, ◌≢◌};

use crate::leaves::{is_child_key, is_mark_key, is_plain_member, leaf_text, mark_from, own};
use crate::names::is_name;
use crate::tree::push_child;
use crate::{Child, Text, Tree, TreeFault, TreeMark};
use serde_json::{Map, Value};
use std::alloc::Global;

/// The node that a value is.
#[cycle(node)]
pub fn read_node<'a>(alloc: Global, value: &'a Value) -> Result<Tree<'a>, TreeFault>
    ensures tree { TreeMeets result (of_kind (is_node (view value.now)) (node_in (view value.now))) }
    ensures early { has_kind (view value.now) ≡ false → result ≡ Err TreeFault.WrongKind }
    ensures sound { IfOk result (λ tree. is_sound (node_of tree) ≡ true) }
{
    match value {
        Value::Object(members) => {
            let children = read_children(alloc, members)?;
            let own = own(alloc, value)?;
            finished(members, own, children)
        }
        Value::String(_) => read_leaf(alloc, value),
        Value::Number(_) => read_leaf(alloc, value),
        Value::Null => Err(TreeFault::WrongKind),
        Value::Bool(_) => Err(TreeFault::WrongKind),
        Value::Array(_) => Err(TreeFault::WrongKind),
    }
}

// The children of an object.
#[cycle(node)]
fn read_children<'a>(
    alloc: Global,
    members: &'a Map<String, Value>,
) -> Result<Vec<Child<'a>>, TreeFault>
    ensures children { ChildrenMeet result (of_kind (are_members (members_view members.now.entries)) (children_in (members_view members.now.entries))) }
    ensures early { begin_well (members_view members.now.entries) ≡ false → result ≡ Err TreeFault.WrongKind }
    ensures sound { IfOk result (λ children. are_sound (nodes_of children.items) ≡ true) }
{
    let mut found = Vec::new(alloc);
    for (key, value) in members.iter() {
        if is_child_key(key) {
            if !is_name(key) {
                return Err(TreeFault::WrongKind);
            }
            let tree = read_node(alloc, value)?;
            push_child(&mut found, Text::lent(key), tree)?;
        } else if !is_plain_member(key, value) {
            return Err(TreeFault::WrongKind);
        }
    }
    Ok(found)
}

// A node with a value alone.
fn read_leaf<'a>(alloc: Global, value: &'a Value) -> Result<Tree<'a>, TreeFault>
    ensures tree { TreeMeets result (of_kind (is_some (leaf_text_data (view value.now))) (node (leaf_text_data (view value.now)) None no_children)) }
    ensures early { leaf_text_data (view value.now) ≡ None → result ≡ Err TreeFault.WrongKind }
    ensures sound { IfOk result (λ tree. is_sound (node_of tree) ≡ true) }
{
    match leaf_text(alloc, value)? {
        Some(text) => Ok(Tree {
            value: Some(text),
            mark: None,
            children: Vec::new(alloc),
        }),
        None => Err(TreeFault::WrongKind),
    }
}

// The node of an object with this value and these children.
fn finished<'a>(
    members: &Map<String, Value>,
    value: Option<Text<'a>>,
    children: Vec<Child<'a>>,
) -> Result<Tree<'a>, TreeFault>
    ensures tree { TreeMeets result (of_kind
        (nat_le (marks_in (members_view members.now.entries)) 1 && bears_parts (mark_in_data (members_view members.now.entries)) value.entry
        (nodes_of children.entry.items))
        (node value.entry (mark_in_data (members_view members.now.entries)) (nodes_of children.entry.items))) }
    ensures memory { result ≢ Err TreeFault.OutOfMemory }
    ensures sound { are_sound (nodes_of children.entry.items) ≡ true → IfOk result (λ tree. is_sound (node_of tree) ≡ true) }
{
    let mark = mark_in(members);
    if has_few_marks(members) && bears(mark, &value, children.as_slice()) {
        Ok(Tree {
            value,
            mark,
            children,
        })
    } else {
        Err(TreeFault::WrongKind)
    }
}

// Whether a node with an operation or a list of words has a value and no children.
fn bears(mark: Option<TreeMark>, value: &Option<Text<'_>>, children: &[Child<'_>]) -> bool
    ensures { result ≡ bears_parts mark value.now (nodes_of children.now) }
{
    match mark {
        Some(TreeMark::Add | TreeMark::Mul | TreeMark::Tokens) => stands_alone(value, children),
        _ => true,
    }
}

// Whether there is a value and no child.
fn stands_alone(value: &Option<Text<'_>>, children: &[Child<'_>]) -> bool
    ensures add { result ≡ bears_parts (Some Add) value.now (nodes_of children.now) }
    ensures mul { result ≡ bears_parts (Some Mul) value.now (nodes_of children.now) }
    ensures tokens { result ≡ bears_parts (Some Tokens) value.now (nodes_of children.now) }
{
    match children {
        [] => value.is_some(),
        [_, ..] => false,
    }
}

fn has_few_marks(members: &Map<String, Value>) -> bool
    ensures { result ≡ nat_le (marks_in (members_view members.now.entries)) 1 }
{
    let mut seen = false;
    for (key, _) in members.iter() {
        if is_mark_key(key) {
            if seen {
                return false;
            }
            seen = true;
        }
    }
    true
}

fn mark_in(members: &Map<String, Value>) -> Option<TreeMark>
    ensures { result ≡ mark_in_data (members_view members.now.entries) }
{
    for (key, value) in members.iter() {
        if is_mark_key(key) {
            return mark_from(key, value);
        }
    }
    None
}
