//! Facts in a list by id: found near a place or by halves, and all that is kept of one id set.

ghost use Rattle.{sim_fact_lists.specs.Changes.{Ascend, Belongs, Stands, with_only}, sim_system.specs.Notes.fact_with};
ghost use Rattle.std.specs.Prelude.{IfSome, IsOk, IsTrue, MatchResult, OnErr, OnOk, option_copied, vec_capacity, vec_len, ◌<◌, ◌≡◌};

use sim_base::OutOfMemory;
use sim_system::Fact;

/// Where the fact of an id stands, or where it would be put, looked for by halves.
pub fn place_of(facts: &[Fact], id: u32) -> Result<usize, usize>
    requires { Ascend facts.now }
    ensures { MatchResult result (Stands facts.now id) (Belongs facts.now id) }
{
    facts.binary_search_by_key(&id, |fact| fact.id)
}

/// Where the fact of an id stands, or where it would be put, looked for first at a place and just after it: notes of one phase
/// ascend by id. Any place is right.
pub fn place_near(facts: &[Fact], id: u32, near: usize) -> Result<usize, usize>
    requires { Ascend facts.now }
    ensures { MatchResult result (Stands facts.now id) (Belongs facts.now id) }
{
    if stands_at(facts, id, near) {
        return Ok(near);
    }
    let next = near.saturating_add(1);
    if stands_at(facts, id, next) {
        return Ok(next);
    }
    place_of(facts, id)
}

// Whether the fact of an id stands at a place.
fn stands_at(facts: &[Fact], id: u32, at: usize) -> bool
    ensures { IsTrue result → Stands facts.now id at }
{
    match facts.get(at) {
        Some(fact) => fact.id == id,
        None => false,
    }
}

/// The fact of an id, if it is kept.
pub fn find(facts: &[Fact], id: u32) -> Option<&Fact>
    requires { Ascend facts.now }
    ensures { option_copied result ≡ fact_with facts.now id }
{
    match place_of(facts, id) {
        Ok(at) => Some(&facts[at]),
        Err(_) => None,
    }
}

/// Keeps this of an id, and nothing else, or leaves the list as it was. Near which place it stands is a hint.
pub fn put(
    facts: &mut Vec<Fact>,
    id: u32,
    near: usize,
    part: &Option<Fact>,
) -> Result<(), OutOfMemory>
    requires ascending { Ascend facts.old.items }
    requires named { IfSome part.now (λ fact. fact.id ≡ id) }
    ensures ok { OnOk result (facts.new.items ≡ with_only id part.now facts.old.items) }
    ensures err { OnErr result (facts.new.items ≡ facts.old.items) }
    ensures room { vec_len facts.old < vec_capacity facts.old → IsOk result }
{
    match (place_near(facts.as_slice(), id, near), part) {
        (Ok(at), Some(fact)) => facts[at] = *fact,
        (Ok(at), None) => {
            facts.remove(at);
        }
        (Err(at), Some(fact)) => facts.insert(at, *fact)?,
        (Err(_), None) => {}
    }
    Ok(())
}
