//! Templates beside the numbers of their parents, and how each is resolved: its own tree is laid over that of its parent,
//! which is resolved before it and kept.

ghost use Rattle.sim_merge.specs.{Libraries.{is_layable, is_resolved}, Overlay.{IfBadOp, IfRefusal, IsTreeOf, refusal_at, refused, there}};
ghost use Rattle.sim_merge.specs.Resolution.{AreResolved, bare as bare_node, chain_root, Has, inherited, IsForest, IsKept, KeepsAll, layings, members};
ghost use Rattle.{sim_merge.specs.Resolution.{origins_of, root_refusal, roots_in}, sim_tree.specs.Trees.node_of};
ghost use Rattle.std.specs.{List.{cons_option, list_all}, Prelude.{filter_map, IfErr, IfOk, IsTrue, length, MatchResult, None, OnOk, replicate, slice_get}};
ghost use Rattle.std.specs.Prelude.{slice_index_or, Some, true, [], ◌++◌, ◌<◌, ◌^◌, ◌≡◌, ◌≤◌};

use crate::{MergeFault, OverlayFault, overlay};
use sim_base::{Global, OutOfMemory};
use sim_tree::{Source, Tree};

/// Templates and the number of each one's parent: each chain of parents ends, and each own tree may be laid over another.
#[derive(Drop)]
pub struct Family<'s, 'a> {
    pub sources: &'s [Source<'a>],
    pub parents: &'s [Option<usize>],
    ghost few: { length parents.now ≤ 256 },
    ghost forest: { IsForest parents.now },
    ghost same: { length sources.now ≡ length parents.now },
    ghost layable: { list_all is_layable (roots_in (origins_of sources.now)) ≡ true },
}

impl<'a> Family<'_, 'a> {
    /// The resolved tree of each template, in order.
    pub fn trees(&self, alloc: Global) -> Result<Vec<Tree<'a>>, MergeFault>
        ensures resolved { IfOk result (λ trees. AreResolved self.now.parents.now (roots_in (origins_of self.now.sources.now)) trees.items) }
        ensures refused { let found = root_refusal (layings self.now.parents.now (roots_in (origins_of self.now.sources.now))) in
            MatchResult result (λ _. found ≡ None) (λ fault. IfRefusal fault (found ≡ Some fault)) }
    {
        let mut kept = nothing_kept(alloc, self.parents.len())?;
        for number in 0..self.parents.len() {
            match self.keep(alloc, &mut kept, number) {
                Ok(()) => {}
                Err(fault) => return Err(refusal(fault, number)),
            }
        }
        Ok(taken(alloc, kept)?)
    }

    // Resolves a template and all that it inherits, unless that is done, and keeps the results.
    fn keep(
        &self,
        alloc: Global,
        kept: &mut Vec<Option<Tree<'a>>>,
        number: usize,
    ) -> Result<(), OverlayFault>
        requires number { number < length self.now.parents.now }
        requires kept { IsKept self.now.parents.now (roots_in (origins_of self.now.sources.now)) kept.old.items }
        ensures kept { IsKept self.now.parents.now (roots_in (origins_of self.now.sources.now)) kept.new.items }
        ensures stays { KeepsAll kept.old.items kept.new.items }
        ensures has { OnOk result (Has kept.new.items number) }
        ensures refused { IfErr result (λ fault. IfBadOp fault
            (chain_root (roots_in (origins_of self.now.sources.now)) (members self.now.parents.now number) ≡ refused)) }
    {
        if has(kept.as_slice(), number) {
            return Ok(());
        }
        match self.parents[number] {
            None => {
                let tree = self.over(alloc, &bare(alloc), number)?;
                kept[number] = Some(tree);
                Ok(())
            }
            Some(parent) => {
                self.keep(alloc, kept, parent)?;
                let tree = self.over(alloc, tree_at(kept.as_slice(), parent), number)?;
                kept[number] = Some(tree);
                Ok(())
            }
        }
    }

    // The own tree of a template laid over a lower one.
    fn over(&self, alloc: Global, lower: &Tree<'a>, number: usize) -> Result<Tree<'a>, OverlayFault>
        requires number { number < length self.now.sources.now }
        requires lower { is_resolved (node_of lower.now) ≡ true }
        ensures { IsTreeOf result (inherited (there (node_of lower.now)) (slice_get (roots_in (origins_of self.now.sources.now)) number)) }
    {
        overlay(alloc, lower, &self.sources[number].tree)
    }
}

fn nothing_kept<'a>(alloc: Global, count: usize) -> Result<Vec<Option<Tree<'a>>>, OutOfMemory>
    ensures { IfOk result (λ kept. kept.items ≡ replicate count None) }
{
    let mut kept = Vec::new(alloc);
    for made in 0..count {
        kept.push(None)?;
    }
    Ok(kept)
}

// The trees that were kept.
fn taken<'a>(alloc: Global, kept: Vec<Option<Tree<'a>>>) -> Result<Vec<Tree<'a>>, OutOfMemory>
    ensures { IfOk result (λ trees. trees.items ≡ filter_map (λ slot. slot) kept.entry.items) }
{
    let mut trees = Vec::new(alloc);
    for slot in kept {
        push_if(&mut trees, slot)?;
    }
    Ok(trees)
}

// Adds a tree, if there is one.
fn push_if<'a>(trees: &mut Vec<Tree<'a>>, slot: Option<Tree<'a>>) -> Result<(), OutOfMemory>
    ensures { OnOk result (trees.new.items ≡ trees.old.items ++ cons_option slot.entry []) }
{
    match slot {
        Some(tree) => {
            trees.push(tree)?;
            Ok(())
        }
        None => Ok(()),
    }
}

// A template without a tree is refused by its number.
fn refusal(fault: OverlayFault, number: usize) -> MergeFault
    requires { number < 2 ^ 32 }
    ensures { result ≡ refusal_at number fault }
{
    match fault {
        OverlayFault::BadOp => MergeFault::BadOp {
            index: number as u32,
        },
        OverlayFault::OutOfMemory => MergeFault::OutOfMemory,
    }
}

fn has(kept: &[Option<Tree<'_>>], number: usize) -> bool
    requires { number < length kept.now }
    ensures { IsTrue result → Has kept.now number }
{
    match &kept[number] {
        Some(_) => true,
        None => false,
    }
}

// The tree that is kept for a template.
fn tree_at<'t, 'a>(kept: &'t [Option<Tree<'a>>], number: usize) -> &'t Tree<'a>
    requires number { number < length kept.now }
    requires has { Has kept.now number }
    ensures { slice_index_or kept.now number None ≡ Some result.now }
{
    match &kept[number] {
        Some(tree) => tree,
        None => unreachable!(),
    }
}

// A node with nothing to it.
fn bare<'a>(alloc: Global) -> Tree<'a>
    ensures { node_of result ≡ bare_node }
{
    Tree {
        value: None,
        mark: None,
        children: Vec::new(alloc),
    }
}
