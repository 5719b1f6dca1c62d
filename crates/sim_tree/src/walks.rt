//! What is asked of all values within a value before a tree is read of it. A value is not gone into below a level that
//! is given, so that no recursion here or later goes deeper than the 32 levels of a tree.

ghost use Rattle.{serde_json.specs.View.items_view, serde_json.specs.View.members_view, serde_json.specs.View.view, sim_tree.specs.Walks.members_height};
ghost use Rattle.std.specs.Prelude.{◌≡◌, nat_lt};
ghost use Rattle.sim_tree.specs.Walks.{has_float as has_float_data, height, items_float as items_float_data, items_height, members_float as members_float_data};

use serde_json::{Map, Value};

/// Whether a value within this one, or it itself, lies on a level beyond these; this one lies on the first.
#[cycle(deep)]
pub fn lies_beyond(value: &Value, levels: u32) -> bool
    ensures { result ≡ nat_lt levels (height (view value.now)) }
{
    if levels == 0 {
        return true;
    }
    match value {
        Value::Array(items) => items_beyond(items, levels - 1),
        Value::Object(members) => members_beyond(members, levels - 1),
        _ => false,
    }
}

#[cycle(deep)]
fn items_beyond(items: &Vec<Value>, levels: u32) -> bool
    ensures { result ≡ nat_lt levels (items_height (items_view items.now.items)) }
{
    for item in items {
        if lies_beyond(item, levels) {
            return true;
        }
    }
    false
}

#[cycle(deep)]
fn members_beyond(members: &Map<String, Value>, levels: u32) -> bool
    ensures { result ≡ nat_lt levels (members_height (members_view members.now.entries)) }
{
    for (_, member) in members.iter() {
        if lies_beyond(member, levels) {
            return true;
        }
    }
    false
}

/// Whether a number within the value is not whole.
#[cycle(float)]
pub fn has_float(value: &Value) -> bool
    ensures { result ≡ has_float_data (view value.now) }
{
    match value {
        Value::Number(number) => number.is_f64(),
        Value::Array(items) => items_float(items),
        Value::Object(members) => members_float(members),
        _ => false,
    }
}

#[cycle(float)]
fn items_float(items: &Vec<Value>) -> bool
    ensures { result ≡ items_float_data (items_view items.now.items) }
{
    for item in items {
        if has_float(item) {
            return true;
        }
    }
    false
}

#[cycle(float)]
fn members_float(members: &Map<String, Value>) -> bool
    ensures { result ≡ members_float_data (members_view members.now.entries) }
{
    for (_, member) in members.iter() {
        if has_float(member) {
            return true;
        }
    }
    false
}
