//! The tree: each node has perhaps a value, at most one mark, and children by name. A tree without marks is plain; in
//! a tree that is laid over another one a mark says what becomes of what lies below it.

ghost use Rattle.std.specs.Prelude.{◌≡◌, [], ◌∷◌, ◌++◌, map, IfOk, OnOk, option_map};
ghost use Rattle.sim_tree.specs.Trees.{child_named, named_of, node_of, nodes_of, under};

use crate::text::Text;
use sim_base::{Global, Name, OutOfMemory};

/// What becomes of the node below, where a node with this mark is laid over it.
#[derive(Clone, Copy, Debug, PartialEq, Eq)]
pub enum TreeMark {
    /// It goes.
    Disable,
    /// It goes, and the node with the mark stands in its place.
    Replace,
    /// As without a mark; but where nothing lies below, nothing comes of it.
    Merge,
    /// The sum of the two numbers.
    Add,
    /// The product of the two numbers.
    Mul,
    /// The list of words below, with words added and removed.
    Tokens,
}

/// A node and all that is under it: its value, its mark, and its children, which ascend by name.
#[cycle(tree)]
#[derive(Debug, Drop)]
pub struct Tree<'a> {
    pub value: Option<Text<'a>>,
    pub mark: Option<TreeMark>,
    pub children: Vec<Child<'a>>,
}

/// A node that is under another one, with its name there.
#[cycle(tree)]
#[derive(Debug, Drop)]
pub struct Child<'a> {
    pub name: Text<'a>,
    pub tree: Tree<'a>,
}

impl<'a> Tree<'a> {
    /// The child of this name, if there is one.
    pub fn child(&self, name: &str) -> Option<&Tree<'a>>
        ensures { option_map (λ tree. node_of tree.now) result ≡ child_named name.now (under (node_of self.now)) }
    {
        child_in(self.children.as_slice(), name)
    }

    /// The same tree in memory of its own, but for texts that are lent.
    #[cycle(copy)]
    pub fn copy(&self, alloc: Global) -> Result<Tree<'a>, OutOfMemory>
        ensures { IfOk result (λ copied. node_of copied ≡ node_of self.now) }
    {
        Ok(Tree {
            value: copy_value(&self.value)?,
            mark: self.mark,
            children: copy_children(alloc, &self.children)?,
        })
    }
}

fn child_in<'t, 'a>(children: &'t [Child<'a>], name: &str) -> Option<&'t Tree<'a>>
    ensures { option_map (λ tree. node_of tree.now) result ≡ child_named name.now (nodes_of children.now) }
{
    for child in children {
        if child.name.as_str() == name {
            return Some(&child.tree);
        }
    }
    None
}

fn copy_value<'a>(value: &Option<Text<'a>>) -> Result<Option<Text<'a>>, OutOfMemory>
    ensures { IfOk result (λ copied. copied ≡ value.now) }
{
    match value {
        Some(text) => Ok(Some(text.copy()?)),
        None => Ok(None),
    }
}

#[cycle(copy)]
fn copy_children<'a>(
    alloc: Global,
    children: &Vec<Child<'a>>,
) -> Result<Vec<Child<'a>>, OutOfMemory>
    ensures { IfOk result (λ copied. nodes_of copied.items ≡ nodes_of children.now.items) }
{
    let mut copied = Vec::new(alloc);
    for child in children {
        let tree = child.tree.copy(alloc)?;
        let name = child.name.copy()?;
        push_child(&mut copied, name, tree)?;
    }
    Ok(copied)
}

/// Adds a child behind the others.
pub fn push_child<'a>(
    children: &mut Vec<Child<'a>>,
    name: Text<'a>,
    tree: Tree<'a>,
) -> Result<(), OutOfMemory>
    ensures { OnOk result (map named_of children.new.items ≡ map named_of children.old.items ++ (name.entry, node_of tree.entry) ∷ []) }
{
    children.push(Child { name, tree })?;
    Ok(())
}

/// The same name, in memory of its own.
pub fn copy_name(alloc: Global, name: &Name) -> Result<Name, OutOfMemory>
    ensures { IfOk result (λ copied. copied ≡ name.now) }
{
    match Name::of(alloc, name.text())? {
        Some(copied) => Ok(copied),
        None => unreachable!(),
    }
}
