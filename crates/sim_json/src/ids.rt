//! Ids of entities and numbers of templates, be they there or not.

ghost use Rattle.std.specs.Prelude.{IfErr, IfOk, IfSome, length, map, true, ◌≡◌, ◌≤◌};
ghost use Rattle.sim_json.specs.Commands.{id_in as id_in_data, ids_from as ids_from_data, ids_of as ids_of_data, ids_take, items_take};
ghost use Rattle.{serde_json.specs.View.view, sim_json.specs.Commands.template_in as template_in_data};

use crate::{list_of, natural_in};
use serde_json::Value;
use sim_base::{Global, Ids, OutOfMemory};

// A command names so many entities at most.
const MOST: usize = 256;

/// The id of an entity: a whole number of 32 bits.
pub fn id_in(value: &Value) -> Option<u32>
    ensures { result ≡ id_in_data (view value.now) }
{
    match natural_in(value, 0, u64::from(u32::MAX)) {
        Some(id) => Some(id as u32),
        None => None,
    }
}

/// The number of a template: a whole number of 16 bits.
pub fn template_in(value: &Value) -> Option<u16>
    ensures { result ≡ template_in_data (view value.now) }
{
    match natural_in(value, 0, u64::from(u16::MAX)) {
        Some(template) => Some(template as u16),
        None => None,
    }
}

/// A list of at most 256 ids.
pub fn ids_of(alloc: Global, value: &Value) -> Result<Option<Ids>, OutOfMemory>
    ensures value { IfOk result (λ ids. ids ≡ ids_of_data (view value.now)) }
    ensures few { IfOk result (λ found. IfSome found (λ ids. length ids ≤ 256)) }
    ensures memory { IfErr result (λ fault. ids_take (view value.now) ≡ true) }
{
    match list_of(value) {
        Some(items) => ids_from(alloc, items),
        None => Ok(None),
    }
}

fn ids_from(alloc: Global, items: &[Value]) -> Result<Option<Ids>, OutOfMemory>
    ensures value { IfOk result (λ ids. ids ≡ ids_from_data (map view items.now)) }
    ensures few { IfOk result (λ found. IfSome found (λ ids. length ids ≤ 256)) }
    ensures memory { IfErr result (λ fault. items_take (map view items.now) ≡ true) }
{
    if items.len() > MOST {
        return Ok(None);
    }
    let mut found = Vec::new(alloc);
    let mut rest = items;
    while let [item, more @ ..] = rest {
        match id_in(item) {
            Some(id) => found.push(id)?,
            None => return Ok(None),
        }
        rest = more;
    }
    Ok(Some(Ids::from_items(found)))
}
