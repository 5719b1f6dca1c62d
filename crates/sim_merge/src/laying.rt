//! A tree laid over another one: the two are walked at once, by their marks and by the names of their children.

ghost use Rattle.std.specs.Prelude.{Err, IfErr, IfOk, IsTrue, MatchResult, None, Ok, Option, Some, true, ◌≡◌};
ghost use Rattle.sim_merge.specs.Overlay.{function_of, HasLaid, IfBadOp, is_sound_if, IsRefused, IsTreeOf, laid, laid_under, laid_unmarked, laying_of};
ghost use Rattle.sim_merge.specs.Overlay.{lower_children, lower_value, node_if, refused, there, value_by, value_over as value_over_value, with_value};
ghost use Rattle.sim_merge.specs.{Libraries.is_layable, Libraries.is_resolved, Overlay.words_over as words_over_words};
ghost use Rattle.sim_tree.specs.Trees.{are_sound, mark_of, node, node_of, nodes_of, value_of as value_of_node};

use crate::fault::OverlayFault;
use crate::merge::{
    behind, children_of, copies, first_named, push_before, push_copies, push_laid, value_of,
};
use crate::operation::{Operation, operated_value};
use crate::words::words_over;
use sim_base::{Global, OutOfMemory};
use sim_tree::{Child, Text, Tree, TreeMark};

/// The upper tree laid over the lower one, by its marks.
pub fn overlay<'a>(
    alloc: Global,
    lower: &Tree<'a>,
    upper: &Tree<'a>,
) -> Result<Tree<'a>, OverlayFault>
    requires lower { IsTrue (is_resolved (node_of lower.now)) }
    requires upper { IsTrue (is_layable (node_of upper.now)) }
    ensures resolved { IfOk result (λ tree. IsTrue (is_resolved (node_of tree))) }
    ensures paths { IfOk result (λ tree. HasLaid (node_of lower.now) (node_of upper.now) (node_of tree)) }
    ensures bad { IfErr result (λ fault. IfBadOp fault (IsRefused (node_of lower.now) (node_of upper.now))) }
    ensures laid { IsTreeOf result (laid (Some (node_of lower.now)) (node_of upper.now)) }
{
    let tree = unmarked(alloc, upper, Some(lower))?;
    Ok(tree)
}

// The upper tree laid over the lower one, if there is a lower one, or nothing.
#[cycle(laying)]
fn lay<'a>(
    alloc: Global,
    upper: &Tree<'a>,
    lower: Option<&Tree<'a>>,
) -> Result<Option<Tree<'a>>, OverlayFault>
    requires { is_sound_if (node_if lower) ≡ true }
    ensures laid { MatchResult result
        (λ found. laid (node_if lower.entry) (node_of upper.now) ≡ laying_of found)
        (λ fault. IfBadOp fault (laid (node_if lower.entry) (node_of upper.now) ≡ refused)) }
    ensures disabled { mark_of (node_of upper.now) ≡ Some TreeMark.Disable → result ≡ Ok None }
    ensures nothing_below { mark_of (node_of upper.now) ≡ Some TreeMark.Merge → node_if lower.entry ≡ None → result ≡ Ok None }
    ensures no_sum { mark_of (node_of upper.now) ≡ Some TreeMark.Add → value_by (function_of Operation.Sum) (lower_value (node_if lower.entry))
        (value_of_node (node_of upper.now)) ≡ None → result ≡ Err OverlayFault.BadOp }
    ensures no_product { mark_of (node_of upper.now) ≡ Some TreeMark.Mul → value_by (function_of Operation.Product) (lower_value (node_if lower.entry))
        (value_of_node (node_of upper.now)) ≡ None → result ≡ Err OverlayFault.BadOp }
{
    let mark = match upper.mark {
        None => return Ok(Some(unmarked(alloc, upper, lower)?)),
        Some(mark) => mark,
    };
    match mark {
        TreeMark::Disable => Ok(None),
        TreeMark::Replace => Ok(Some(unmarked(alloc, upper, None)?)),
        TreeMark::Merge => match lower {
            None => Ok(None),
            Some(tree) => Ok(Some(unmarked(alloc, upper, Some(tree))?)),
        },
        TreeMark::Add => Ok(Some(operated(alloc, Operation::Sum, upper, lower)?)),
        TreeMark::Mul => Ok(Some(operated(alloc, Operation::Product, upper, lower)?)),
        TreeMark::Tokens => Ok(Some(listed(alloc, upper, lower)?)),
    }
}

// The upper tree as if its root had no mark.
#[cycle(laying)]
fn unmarked<'a>(
    alloc: Global,
    upper: &Tree<'a>,
    lower: Option<&Tree<'a>>,
) -> Result<Tree<'a>, OverlayFault>
    requires { is_sound_if (node_if lower) ≡ true }
    ensures { MatchResult result
        (λ tree. laid_unmarked (node_if lower.entry) (node_of upper.now) ≡ there (node_of tree))
        (λ fault. IfBadOp fault (laid_unmarked (node_if lower.entry) (node_of upper.now) ≡ refused)) }
{
    let children = merged(alloc, upper.children.as_slice(), children_of(lower))?;
    let value = value_over(upper, lower)?;
    Ok(Tree {
        value,
        mark: None,
        children,
    })
}

// Children over those of the lower tree. Both ascend by name, so each is walked once.
#[cycle(laying)]
fn merged<'a>(
    alloc: Global,
    upper: &[Child<'a>],
    lower: &[Child<'a>],
) -> Result<Vec<Child<'a>>, OverlayFault>
    requires { are_sound (nodes_of lower.now) ≡ true }
    ensures { MatchResult result
        (λ children. laid_under (nodes_of lower.now) (nodes_of upper.now) ≡ Some (nodes_of children.items))
        (λ fault. IfBadOp fault (laid_under (nodes_of lower.now) (nodes_of upper.now) ≡ None)) }
{
    let mut children = Vec::new(alloc);
    let mut rest = lower;
    for child in upper {
        let name = child.name.as_str();
        rest = push_before(alloc, &mut children, rest, name)?;
        let laid = lay(alloc, &child.tree, first_named(rest, name))?;
        push_laid(&mut children, &child.name, laid)?;
        rest = behind(rest, name);
    }
    push_copies(alloc, &mut children, rest)?;
    Ok(children)
}

// The value of the upper tree, or that of the lower one where it has none.
fn value_over<'a>(
    upper: &Tree<'a>,
    lower: Option<&Tree<'a>>,
) -> Result<Option<Text<'a>>, OutOfMemory>
    ensures { IfOk result (λ value. value ≡ value_over_value (value_of_node (node_of upper.now)) (lower_value (node_if lower.entry))) }
{
    match &upper.value {
        Some(text) => Ok(Some(text.copy()?)),
        None => match value_of(lower) {
            Some(text) => Ok(Some(text.copy()?)),
            None => Ok(None),
        },
    }
}

// The lower tree with the result of an operation as its value.
fn operated<'a>(
    alloc: Global,
    operation: Operation,
    upper: &Tree<'a>,
    lower: Option<&Tree<'a>>,
) -> Result<Tree<'a>, OverlayFault>
    ensures bad { value_by (function_of operation) (lower_value (node_if lower.entry)) (value_of_node (node_of upper.now)) ≡ None
        → result ≡ Err OverlayFault.BadOp }
    ensures value { let value = value_by (function_of operation) (lower_value (node_if lower.entry)) (value_of_node (node_of upper.now)) in
        MatchResult result
        (λ tree. with_value value (lower_children (node_if lower.entry)) ≡ there (node_of tree))
        (λ fault. IfBadOp fault (with_value value (lower_children (node_if lower.entry)) ≡ refused)) }
{
    let value = operated_value(alloc, operation, value_of(lower), upper.value.as_ref())?;
    Ok(Tree {
        value: Some(value),
        mark: None,
        children: copies(alloc, children_of(lower))?,
    })
}

// The lower tree with the words of both as its value.
fn listed<'a>(
    alloc: Global,
    upper: &Tree<'a>,
    lower: Option<&Tree<'a>>,
) -> Result<Tree<'a>, OutOfMemory>
    ensures { IfOk result (λ tree. node_of tree ≡
        node (Some (words_over_words (value_of_node (node_of upper.now)) (lower_value (node_if lower.entry)))) None (lower_children (node_if lower.entry))) }
{
    let value = words_over(alloc, upper.value.as_ref(), value_of(lower))?;
    Ok(Tree {
        value: Some(value),
        mark: None,
        children: copies(alloc, children_of(lower))?,
    })
}
