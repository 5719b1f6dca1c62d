//! Children by name: copies of them, and the places that a name has among children that ascend.

ghost use Rattle.sim_merge.specs.Overlay.{before, behind as nodes_behind, followed_by, is_sound_if, IsPast, laying_of, lower_children, lower_value, node_if};
ghost use Rattle.sim_merge.specs.Overlay.{with_laid, with_lower};
ghost use Rattle.sim_tree.specs.Trees.{are_sound, child, child_named, Children, is_before, named_of, no_children, node_of, nodes_of};
ghost use Rattle.std.specs.{Option.option_copied, Prelude.{IfOk, None, OnOk, Option, Some, true, [], ◌∷◌, ◌≡◌}, Str.bytes_eq};

use sim_base::{Global, OutOfMemory};
use sim_tree::{Child, Text, Tree};

/// The children of a tree, and none where there is no tree.
pub fn children_of<'t, 'a>(tree: Option<&'t Tree<'a>>) -> &'t [Child<'a>]
    ensures { nodes_of result.now ≡ lower_children (node_if tree.entry) }
{
    match tree {
        Some(tree) => tree.children.as_slice(),
        None => no_child(),
    }
}

fn no_child<'t, 'a>() -> &'t [Child<'a>]
    ensures { result.now ≡ [] }
{
    &[]
}

/// The value of a tree, if there is a tree and it has one.
pub fn value_of<'t, 'a>(tree: Option<&'t Tree<'a>>) -> Option<&'t Text<'a>>
    ensures { option_copied result ≡ lower_value (node_if tree.entry) }
{
    match tree {
        Some(tree) => tree.value.as_ref(),
        None => None,
    }
}

/// Copies of children.
pub fn copies<'a>(alloc: Global, children: &[Child<'a>]) -> Result<Vec<Child<'a>>, OutOfMemory>
    ensures { IfOk result (λ copied. nodes_of copied.items ≡ nodes_of children.now) }
{
    let mut copied = Vec::new(alloc);
    push_copies(alloc, &mut copied, children)?;
    Ok(copied)
}

/// Adds copies of children.
pub fn push_copies<'a>(
    alloc: Global,
    out: &mut Vec<Child<'a>>,
    children: &[Child<'a>],
) -> Result<(), OutOfMemory>
    ensures { OnOk result (nodes_of out.new.items ≡ followed_by (nodes_of out.old.items) (nodes_of children.now)) }
{
    for child in children {
        push_copy(alloc, out, child)?;
    }
    Ok(())
}

fn push_copy<'a>(
    alloc: Global,
    out: &mut Vec<Child<'a>>,
    child: &Child<'a>,
) -> Result<(), OutOfMemory>
    ensures { OnOk result (nodes_of out.new.items ≡ followed_by (nodes_of out.old.items) (nodes_of (child.now ∷ []))) }
{
    push_child(out, &child.name, child.tree.copy(alloc)?)
}

fn push_child<'a>(
    out: &mut Vec<Child<'a>>,
    name: &Text<'a>,
    tree: Tree<'a>,
) -> Result<(), OutOfMemory>
    ensures { OnOk result (nodes_of out.new.items ≡ followed_by (nodes_of out.old.items) (child name.now (node_of tree.entry) no_children)) }
{
    let name = name.copy()?;
    out.push(Child { name, tree })?;
    Ok(())
}

/// Adds a tree under a name, if there is a tree.
pub fn push_laid<'a>(
    out: &mut Vec<Child<'a>>,
    name: &Text<'a>,
    tree: Option<Tree<'a>>,
) -> Result<(), OutOfMemory>
    ensures { OnOk result ((more : Option Children) →
        with_lower (nodes_of out.old.items) (with_laid name.now (laying_of tree.entry) more) ≡ with_lower (nodes_of out.new.items) more) }
{
    match tree {
        Some(tree) => {
            push_child(out, name, tree)?;
            Ok(())
        }
        None => Ok(()),
    }
}

// The child's name stands before this one.
fn precedes(child: &Child<'_>, name: &str) -> bool
    ensures { result ≡ is_before (named_of child.now).0 name.now }
{
    child.name.as_str() < name
}

// The child has this name.
fn is_named(child: &Child<'_>, name: &str) -> bool
    ensures { result ≡ bytes_eq (named_of child.now).0 name.now }
{
    child.name.as_str() == name
}

/// Adds copies of the children before a name, and answers the others.
pub fn push_before<'t, 'a>(
    alloc: Global,
    out: &mut Vec<Child<'a>>,
    children: &'t [Child<'a>],
    name: &str,
) -> Result<&'t [Child<'a>], OutOfMemory>
    requires { are_sound (nodes_of children.now) ≡ true }
    ensures { IfOk result (λ rest.
        IsPast name.now (nodes_of out.old.items) (nodes_of out.new.items) (nodes_of children.now) (nodes_of rest.now)) }
{
    for (i, child) in children.iter().enumerate() {
        if !precedes(child, name) {
            return Ok(&children[i..]);
        }
        push_copy(alloc, out, child)?;
    }
    Ok(&[])
}

/// The tree of the first child, if that child has the name.
pub fn first_named<'t, 'a>(children: &'t [Child<'a>], name: &str) -> Option<&'t Tree<'a>>
    requires sound { are_sound (nodes_of children.now) ≡ true }
    requires none_before { before name.now (nodes_of children.now) ≡ no_children }
    ensures named { node_if result ≡ child_named name.now (nodes_of children.now) }
    ensures sound { is_sound_if (node_if result) ≡ true }
{
    match children {
        [child, ..] => {
            if is_named(child, name) {
                Some(&child.tree)
            } else {
                None
            }
        }
        [] => None,
    }
}

/// The children without the first one, if that has the name.
pub fn behind<'t, 'a>(children: &'t [Child<'a>], name: &str) -> &'t [Child<'a>]
    requires sound { are_sound (nodes_of children.now) ≡ true }
    requires none_before { before name.now (nodes_of children.now) ≡ no_children }
    ensures rest { nodes_of result.now ≡ nodes_behind name.now (nodes_of children.now) }
    ensures sound { are_sound (nodes_of result.now) ≡ true }
{
    match children {
        [child, rest @ ..] => {
            if is_named(child, name) {
                rest
            } else {
                children
            }
        }
        [] => children,
    }
}
