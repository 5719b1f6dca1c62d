//! Code 2 at the items of `templates`, and code 3 at that key: the sources of the templates, which may be at most 256 and
//! have different names. All items are read before any limit is looked at.

ghost use Rattle.std.specs.Prelude.{All, IfErr, IfOk, IfSome, IsErr, length, map, nat_le, option_map, ◌&&◌, ◌+◌, ◌<◌, ◌^◌, ◌≡◌, ◌≢◌};
ghost use Rattle.sim_setup.specs.Refusals.{IsReadySource, source_of as source_of_data, sources_from as sources_from_data, sources_in as sources_in_data};
ghost use Rattle.sim_setup.specs.{Common.are_distinct, Common.names_in, Common.origin_of, Common.origins_of, Common.view, Setups.SourcesMeet, Setups.Tells};

use crate::fault::{SetupFault, refused};
use serde_json::Value;
use sim_base::{Global, OutOfMemory};
use sim_json::list_at;
use sim_merge::names_differ;
use sim_tree::{Source, TreeFault};

// Items are counted from here on, behind the places of the keys.
const FIRST: usize = 16;

/// The sources of the file, or the refusal of the first item that is none.
pub fn sources_in<'a>(alloc: Global, value: &'a Value) -> Result<Vec<Source<'a>>, SetupFault>
    ensures value { SourcesMeet result (sources_in_data (view value.now)) }
    ensures ready { IfOk result (λ sources. All IsReadySource sources.items) }
{
    match list_at(value, "templates") {
        Some(items) => sources_from(alloc, items),
        None => Err(SetupFault::Refused { code: 2, index: 7 }),
    }
}

fn sources_from<'a>(alloc: Global, items: &'a [Value]) -> Result<Vec<Source<'a>>, SetupFault>
    ensures value { SourcesMeet result (sources_from_data (map view items.now)) }
    ensures ready { IfOk result (λ sources. All IsReadySource sources.items) }
{
    let mut found = Vec::new(alloc);
    let mut rest = items;
    while let [item, more @ ..] = rest {
        match source_of(alloc, item)? {
            Some(source) => found.push(source)?,
            None => return Err(refused_item(found.len())),
        }
        rest = more;
    }
    Ok(found)
}

// The refusal of an item by its number.
fn refused_item(number: usize) -> SetupFault
    ensures tells { Tells result 2 (16 + number) }
    ensures told { 16 + number < 2 ^ 32 → result ≢ SetupFault.OutOfMemory }
{
    match number.checked_add(FIRST) {
        Some(index) => refused(2, index),
        None => SetupFault::OutOfMemory,
    }
}

#[tactic(auto, unfolding(crate::specs::Refusals::source_of))]
fn source_of<'a>(alloc: Global, item: &'a Value) -> Result<Option<Source<'a>>, OutOfMemory>
    ensures value { IfOk result (λ source. option_map origin_of source ≡ source_of_data (view item.now)) }
    ensures ready { IfOk result (λ source. IfSome source IsReadySource) }
{
    source_read(Source::from_json(alloc, item))
}

// What is read of an item: every refusal of a tree is one answer.
fn source_read<'a>(read: Result<Source<'a>, TreeFault>) -> Result<Option<Source<'a>>, OutOfMemory>
    ensures ok { IfOk read.entry (λ source. result ≡ Ok (Some source)) }
    ensures refused { IfErr read.entry (λ fault. fault ≢ TreeFault.OutOfMemory → result ≡ Ok None) }
    ensures memory { IfErr read.entry (λ fault. fault ≡ TreeFault.OutOfMemory → IsErr result) }
{
    match read {
        Ok(source) => Ok(Some(source)),
        Err(TreeFault::OutOfMemory) => Err(OutOfMemory),
        Err(TreeFault::WrongKind | TreeFault::NotWhole | TreeFault::TooDeep) => Ok(None),
    }
}

/// Whether there are at most 256 sources, of which no two have the same name.
pub fn are_few(sources: &[Source<'_>]) -> bool
    ensures { result ≡ (nat_le (length sources.now) 256 && are_distinct (names_in (origins_of sources.now))) }
{
    sources.len() <= 256 && names_differ(sources)
}
