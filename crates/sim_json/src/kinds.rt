//! Of which kind a value is. A file with a value of another kind is refused before any number in it is looked at.

ghost use Rattle.{serde_json.specs.{Find.get, View.view}, sim_json.specs.Values.{fits, is_list as is_list_data, is_row as is_row_data}};
ghost use Rattle.sim_json.specs.Values.{is_row_of as is_row_of_data, is_table as is_table_data, is_table_of as is_table_of_data, is_whole as is_whole_data};
ghost use Rattle.std.specs.{List.list_all, Prelude.{map, ◌≡◌}};

use crate::values::list_of;
use serde_json::Value;

/// Whether a whole number is under the key, also one below 0.
pub fn has_whole(value: &Value, key: &str) -> bool
    ensures { result ≡ fits is_whole_data (get key.now (view value.now)) }
{
    match value.get(key) {
        Some(value) => is_whole(value),
        None => false,
    }
}

/// Whether a list is under the key.
pub fn has_list(value: &Value, key: &str) -> bool
    ensures { result ≡ fits is_list_data (get key.now (view value.now)) }
{
    match value.get(key) {
        Some(value) => value.is_array(),
        None => false,
    }
}

/// Whether a list of so many whole numbers is under the key.
pub fn has_row(value: &Value, key: &str, length: usize) -> bool
    ensures { result ≡ fits (is_row_of_data length) (get key.now (view value.now)) }
{
    match value.get(key) {
        Some(value) => is_row_of(value, length),
        None => false,
    }
}

/// Whether a list of lists of whole numbers is under the key.
pub fn has_table(value: &Value, key: &str) -> bool
    ensures { result ≡ fits is_table_data (get key.now (view value.now)) }
{
    match value.get(key) {
        Some(value) => is_table(value),
        None => false,
    }
}

/// Whether a list of lists of so many whole numbers is under the key.
pub fn has_table_of(value: &Value, key: &str, length: usize) -> bool
    ensures { result ≡ fits (is_table_of_data length) (get key.now (view value.now)) }
{
    match value.get(key) {
        Some(value) => is_table_of(value, length),
        None => false,
    }
}

fn is_whole(value: &Value) -> bool
    ensures { result ≡ is_whole_data (view value.now) }
{
    value.is_u64() || value.is_i64()
}

fn is_row(value: &Value) -> bool
    ensures { result ≡ is_row_data (view value.now) }
{
    match list_of(value) {
        Some(items) => all_whole(items),
        None => false,
    }
}

fn is_row_of(value: &Value, length: usize) -> bool
    ensures { result ≡ is_row_of_data length (view value.now) }
{
    match list_of(value) {
        Some(items) => items.len() == length && all_whole(items),
        None => false,
    }
}

fn is_table(value: &Value) -> bool
    ensures { result ≡ is_table_data (view value.now) }
{
    match list_of(value) {
        Some(items) => all_rows(items),
        None => false,
    }
}

fn is_table_of(value: &Value, length: usize) -> bool
    ensures { result ≡ is_table_of_data length (view value.now) }
{
    match list_of(value) {
        Some(items) => all_rows_of(items, length),
        None => false,
    }
}

fn all_whole(items: &[Value]) -> bool
    ensures { result ≡ list_all is_whole_data (map view items.now) }
{
    let mut rest = items;
    while let [item, more @ ..] = rest {
        if !is_whole(item) {
            return false;
        }
        rest = more;
    }
    true
}

fn all_rows(items: &[Value]) -> bool
    ensures { result ≡ list_all is_row_data (map view items.now) }
{
    let mut rest = items;
    while let [item, more @ ..] = rest {
        if !is_row(item) {
            return false;
        }
        rest = more;
    }
    true
}

fn all_rows_of(items: &[Value], length: usize) -> bool
    ensures { result ≡ list_all (is_row_of_data length) (map view items.now) }
{
    let mut rest = items;
    while let [item, more @ ..] = rest {
        if !is_row_of(item, length) {
            return false;
        }
        rest = more;
    }
    true
}
