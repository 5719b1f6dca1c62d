//! Chains of parents: the numbers of parents, and the first template whose chain has no end.

ghost use Rattle.sim_merge.specs.{Overlay.IfRefusal, Resolution.{are_distinct, AreWithin, chain_refusal, ChainMeets, is_orphan as is_orphan_among, IsForest}};
ghost use Rattle.sim_merge.specs.Resolution.{members, names_in, origins_of, orphan_refusal, parent_among, parents_in, repeats as repeats_in};
ghost use Rattle.{sim_tree.specs.Nodes.origin_of, std.specs.{List.list_any, Prelude.{IfOk, IfSome, length, List, map, MatchResult, None, OnOk, position}}};
ghost use Rattle.std.specs.{Prelude.{Some, string_bytes, true, ℕ, ◌++◌, ◌<◌, ◌==◌, ◌∷◌, ◌≡◌, ◌≤◌}, Str.bytes_eq};

use crate::fault::MergeFault;
use indexmap::IndexSet;
use sim_base::{Global, Name, OutOfMemory};
use sim_tree::Source;

// How many members of a chain are looked at: one more than it may have.
const MOST_SEEN: usize = 17;

/// Whether no two templates have one name.
pub fn names_differ(sources: &[Source<'_>]) -> bool
    ensures { result ≡ are_distinct (names_in (origins_of sources.now)) }
{
    let mut rest = sources;
    while let [source, more @ ..] = rest {
        if has_name(more, source.name.text()) {
            return false;
        }
        rest = more;
    }
    true
}

fn has_name(sources: &[Source<'_>], name: &str) -> bool
    ensures { result ≡ list_any (bytes_eq name.now) (names_in (origins_of sources.now)) }
{
    for source in sources {
        if name == source.name.text() {
            return true;
        }
    }
    false
}

/// The names of templates, by number.
pub fn names_of(alloc: Global, sources: &[Source<'_>]) -> Result<IndexSet<String>, OutOfMemory>
    requires { are_distinct (names_in (origins_of sources.now)) ≡ true }
    ensures { IfOk result (λ names. map string_bytes names.keys ≡ names_in (origins_of sources.now)) }
{
    let mut names = IndexSet::new(alloc);
    for source in sources {
        add_name(alloc, &mut names, &source.name)?;
    }
    Ok(names)
}

// Adds a name that differs from those before it, where the names are to be these.
#[tactic(auto, using(crate::proofs::TextLemmas::goes_last))]
fn add_name(alloc: Global, names: &mut IndexSet<String>, name: &Name) -> Result<(), OutOfMemory>
    ensures { OnOk result ((all more : List (List ℕ)) → are_distinct all ≡ true →
        all ≡ map string_bytes names.old.keys ++ name.now ∷ more → all ≡ map string_bytes names.new.keys ++ more) }
{
    names.insert(String::from_str(alloc, name.text())?)?;
    Ok(())
}

/// The number of each template's parent, or the first template whose parent is not there.
pub fn parents_of(
    alloc: Global,
    names: &IndexSet<String>,
    sources: &[Source<'_>],
) -> Result<Vec<Option<usize>>, MergeFault>
    requires few { length sources.now ≤ 256 }
    requires names { map string_bytes names.now.keys ≡ names_in (origins_of sources.now) }
    ensures orphan { IfSome (orphan_refusal (origins_of sources.now)) (λ fault. result ≡ Err fault) }
    ensures parents { IfOk result (λ parents. parents.items ≡ parents_in (origins_of sources.now)) }
    ensures refused { MatchResult result
        (λ parents. orphan_refusal (origins_of sources.now) ≡ None)
        (λ fault. IfRefusal fault (orphan_refusal (origins_of sources.now) ≡ Some fault)) }
{
    if let Some(number) = first_orphan(names, sources) {
        return Err(MergeFault::NoParent {
            index: number as u32,
        });
    }
    Ok(numbers_of(alloc, names, sources)?)
}

// The first template whose parent is not there.
fn first_orphan(names: &IndexSet<String>, sources: &[Source<'_>]) -> Option<usize>
    ensures { result ≡ position (is_orphan_among (map string_bytes names.now.keys)) (origins_of sources.now) }
{
    for (number, source) in sources.iter().enumerate() {
        if is_orphan(names, source) {
            return Some(number);
        }
    }
    None
}

fn is_orphan(names: &IndexSet<String>, source: &Source<'_>) -> bool
    ensures { result ≡ is_orphan_among (map string_bytes names.now.keys) (origin_of source.now) }
{
    source.parent.is_some() && parent_of(names, source).is_none()
}

fn numbers_of(
    alloc: Global,
    names: &IndexSet<String>,
    sources: &[Source<'_>],
) -> Result<Vec<Option<usize>>, OutOfMemory>
    ensures { IfOk result (λ parents. parents.items ≡ map (parent_among (map string_bytes names.now.keys)) (origins_of sources.now)) }
{
    let mut parents = Vec::new(alloc);
    for source in sources {
        parents.push(parent_of(names, source))?;
    }
    Ok(parents)
}

fn parent_of(names: &IndexSet<String>, source: &Source<'_>) -> Option<usize>
    ensures { result ≡ parent_among (map string_bytes names.now.keys) (origin_of source.now) }
{
    match &source.parent {
        Some(name) => place_of(names, name.text()),
        None => None,
    }
}

/// The place of a name among names.
pub fn place_of(names: &IndexSet<String>, name: &str) -> Option<usize>
    ensures { result ≡ position (bytes_eq name.now) (map string_bytes names.now.keys) }
{
    names.get_index_of(name)
}

/// Refuses the first template whose chain comes back to a member, or has more than 16 members.
pub fn check_chains(alloc: Global, parents: &[Option<usize>]) -> Result<(), MergeFault>
    requires few { length parents.now ≤ 256 }
    requires within { AreWithin parents.now }
    ensures ended { OnOk result (IsForest parents.now) }
    ensures refused { MatchResult result
        (λ _. chain_refusal parents.now ≡ None)
        (λ fault. IfRefusal fault (chain_refusal parents.now ≡ Some fault)) }
{
    let mut chain = Vec::new(alloc);
    for number in 0..parents.len() {
        put_members(&mut chain, parents, number)?;
        check_chain(chain.as_slice(), number as u32)?;
    }
    Ok(())
}

// Refuses the first 17 members of a chain where one stands twice, or where they are 17.
fn check_chain(chain: &[usize], index: u32) -> Result<(), MergeFault>
    ensures { ChainMeets result chain.now index }
{
    if repeats(chain) {
        return Err(MergeFault::Cycle { index });
    }
    if chain.len() > 16 {
        return Err(MergeFault::ChainTooLong { index });
    }
    Ok(())
}

// The first 17 members of a chain.
fn put_members(
    chain: &mut Vec<usize>,
    parents: &[Option<usize>],
    number: usize,
) -> Result<(), OutOfMemory>
    requires within { AreWithin parents.now }
    requires number { number < length parents.now }
    ensures { OnOk result (chain.new.items ≡ members parents.now number) }
{
    chain.clear();
    let mut next = Some(number);
    for seen in 0..MOST_SEEN {
        let member = match next {
            Some(member) => member,
            None => return Ok(()),
        };
        chain.push(member)?;
        next = parents[member];
    }
    Ok(())
}

// Whether a member stands twice.
fn repeats(chain: &[usize]) -> bool
    ensures { result ≡ repeats_in chain.now }
{
    let mut rest = chain;
    while let [member, more @ ..] = rest {
        if has(more, *member) {
            return true;
        }
        rest = more;
    }
    false
}

fn has(chain: &[usize], member: usize) -> bool
    ensures { result ≡ list_any (λ other. other == member) chain.now }
{
    chain.iter().any(|other| *other == member)
}
