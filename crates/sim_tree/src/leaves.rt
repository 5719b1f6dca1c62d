//! What stands at a node itself, read from JSON: its value, its mark, and which keys of an object speak of them.

ghost use Rattle.{serde_json.specs.{Find.get, View.view}, sim_tree.specs.Nodes.{is_child_key as is_child_key_bytes, is_mark_key as is_mark_key_bytes}};
ghost use Rattle.sim_tree.specs.Nodes.{is_own_key as is_own_key_bytes, is_plain_member as is_plain_member_data, leaf_text as leaf_text_data};
ghost use Rattle.sim_tree.specs.Nodes.{mark_from as mark_from_data, own_in, text_mark as text_mark_of, whole_mark as whole_mark_of};
ghost use Rattle.std.specs.Prelude.{codes, IfOk, is_some, None, ◌≡◌};

use crate::{Text, TreeMark};
use serde_json::Value;
use sim_base::{Global, OutOfMemory};

/// A text, which the value lends, or a whole number in decimal.
pub fn leaf_text<'a>(alloc: Global, value: &'a Value) -> Result<Option<Text<'a>>, OutOfMemory>
    ensures text { IfOk result (λ text. text ≡ leaf_text_data (view value.now)) }
    ensures no_text { leaf_text_data (view value.now) ≡ None → result ≡ Ok None }
{
    if let Some(text) = value.as_str() {
        return Ok(Some(Text::lent(text)));
    }
    if let Some(n) = value.as_u64() {
        return Ok(Some(Text::of_string(format!(in alloc; "{n}")?)));
    }
    if let Some(n) = value.as_i64() {
        return Ok(Some(Text::of_string(format!(in alloc; "{n}")?)));
    }
    Ok(None)
}

/// The value of an object's node, which stands under `_`.
pub fn own<'a>(alloc: Global, value: &'a Value) -> Result<Option<Text<'a>>, OutOfMemory>
    ensures text { IfOk result (λ text. text ≡ own_in (get (codes "_") (view value.now))) }
    ensures no_text { own_in (get (codes "_") (view value.now)) ≡ None → result ≡ Ok None }
{
    match value.get("_") {
        Some(leaf) => leaf_text(alloc, leaf),
        None => Ok(None),
    }
}

/// Whether a key is the name of a child.
pub fn is_child_key(key: &str) -> bool
    ensures { result ≡ is_child_key_bytes key.now }
{
    !is_own_key(key) && !is_mark_key(key)
}

/// Whether a key begins as marks do.
pub fn is_mark_key(key: &str) -> bool
    ensures { result ≡ is_mark_key_bytes key.now }
{
    key.starts_with("@")
}

/// Whether a member that is no child is a value or a mark.
pub fn is_plain_member(key: &str, value: &Value) -> bool
    ensures { result ≡ is_plain_member_data key.now (view value.now) }
{
    if is_own_key(key) {
        is_leaf(value)
    } else {
        mark_from(key, value).is_some()
    }
}

/// The mark of a key and its value.
pub fn mark_from(key: &str, value: &Value) -> Option<TreeMark>
    ensures { result ≡ mark_from_data key.now (view value.now) }
{
    if let Some(number) = value.as_u64() {
        return whole_mark(key, number);
    }
    if let Some(text) = value.as_str() {
        return text_mark(key, text);
    }
    None
}

fn is_leaf(value: &Value) -> bool
    ensures { result ≡ is_some (leaf_text_data (view value.now)) }
{
    value.is_string() || value.is_u64() || value.is_i64()
}

fn is_own_key(key: &str) -> bool
    ensures { result ≡ is_own_key_bytes key.now }
{
    key == "_"
}

fn whole_mark(key: &str, number: u64) -> Option<TreeMark>
    ensures { result ≡ whole_mark_of key.now number }
{
    if number != 1 {
        return None;
    }
    match key {
        "@disable" => Some(TreeMark::Disable),
        "@replace" => Some(TreeMark::Replace),
        "@merge" => Some(TreeMark::Merge),
        "@tokens" => Some(TreeMark::Tokens),
        _ => None,
    }
}

fn text_mark(key: &str, text: &str) -> Option<TreeMark>
    ensures { result ≡ text_mark_of key.now text.now }
{
    if key != "@op" {
        return None;
    }
    match text {
        "add" => Some(TreeMark::Add),
        "mul" => Some(TreeMark::Mul),
        _ => None,
    }
}
