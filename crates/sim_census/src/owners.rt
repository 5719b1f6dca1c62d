//! The owner of each entity, in a list by id: eight bytes an entity and not the fact that they stand for, so that little moves along
//! the list when one leaves.

ghost use Rattle.{sim_census.specs.Owners.{facts_in, IsOfOwner, owner_fact}, sim_fact_lists.specs.Changes.{Ascend, Belongs, Stands, with_only}};
ghost use Rattle.sim_system.specs.{declared.kind.Kind.TheVariants.Census as CensusKind, Notes.{fact_with, kept_of}};
ghost use Rattle.std.specs.Prelude.{IfOk, IfSome, MatchResult, OnErr, OnOk, true, [], ◌≡◌};

use crate::owned::Owned;
use sim_base::{Fixed, Global, OutOfMemory, Point};
use sim_system::Fact;
use std::cell::Cell;

/// Entities and their owners, ascending by id. The place of the last that was found is a hint for the next.
#[derive(Drop)]
pub struct Owners {
    pub owned: Vec<Owned>,
    near: Cell<usize>,
    ghost ascend: { Ascend (facts_in owned.items) },
}

impl Owners {
    /// Nobody. It keeps the allocator, and takes no memory yet.
    pub fn new(alloc: Global) -> Owners
        ensures { result.owned.items ≡ [] }
    {
        Owners {
            owned: Vec::new(alloc),
            near: Cell::new(0),
        }
    }

    /// Those of these facts.
    pub fn of(alloc: Global, facts: &[Fact]) -> Result<Owners, OutOfMemory>
        requires { Ascend facts.now }
        ensures { IfOk result (λ all. facts_in all.owned.items ≡ kept_of CensusKind facts.now) }
    {
        let owned = listed(alloc, facts)?;
        Ok(Owners {
            owned,
            near: Cell::new(0),
        })
    }

    // Whether an entity stands at a place.
    fn stands_at(&self, id: u32, at: usize) -> bool
        ensures { result ≡ true → Stands (facts_in self.now.owned.items) id at }
    {
        match self.owned.as_slice().get(at) {
            Some(owned) => owned.id == id,
            None => false,
        }
    }

    // Where an entity stands, or where it would be put: looked for first where the last one was found.
    fn place_of(&self, id: u32) -> Result<usize, usize>
        ensures { MatchResult result (Stands (facts_in self.now.owned.items) id) (Belongs (facts_in self.now.owned.items) id) }
    {
        let near = self.near.get();
        if self.stands_at(id, near) {
            return Ok(near);
        }
        let place = place_by_halves(self.owned.as_slice(), id);
        if let Ok(at) = place {
            self.near.set(at);
        }
        place
    }

    /// What is kept of an entity.
    pub fn find(&self, id: u32) -> Option<Fact>
        ensures { result ≡ fact_with (facts_in self.now.owned.items) id }
    {
        match self.place_of(id) {
            Ok(at) => Some(fact_of(&self.owned[at])),
            Err(_) => None,
        }
    }

    /// Keeps this of an id, and nothing else, or leaves the list as it was.
    pub fn put(&mut self, id: u32, part: &Option<Fact>) -> Result<(), OutOfMemory>
        requires { IfSome part.now (IsOfOwner id) }
        ensures ok { OnOk result (facts_in self.new.owned.items ≡ with_only id part.now (facts_in self.old.owned.items)) }
        ensures err { OnErr result (facts_in self.new.owned.items ≡ facts_in self.old.owned.items) }
    {
        match (self.place_of(id), part) {
            (Ok(at), Some(fact)) => self.owned[at] = owned_of(fact),
            (Ok(at), None) => {
                self.owned.remove(at);
            }
            (Err(at), Some(fact)) => self.owned.insert(at, owned_of(fact))?,
            (Err(_), None) => {}
        }
        Ok(())
    }
}

// What is kept of an entity as a fact.
fn fact_of(owned: &Owned) -> Fact
    ensures { result ≡ owner_fact owned.now.id owned.now.owner }
{
    let zero = Fixed::from_raw(0);
    Fact {
        id: owned.id,
        at: Point { x: zero, z: zero },
        owner: owned.owner,
        health: false,
        vision: None,
        rect: None,
        target: 0,
    }
}

// The id and the owner of a fact.
fn owned_of(fact: &Fact) -> Owned
    ensures { result ≡ record { id = fact.now.id; owner = fact.now.owner } }
{
    Owned {
        id: fact.id,
        owner: fact.owner,
    }
}

// Where an entity stands, or where it would be put, looked for by halves.
fn place_by_halves(owned: &[Owned], id: u32) -> Result<usize, usize>
    requires { Ascend (facts_in owned.now) }
    ensures { MatchResult result (Stands (facts_in owned.now) id) (Belongs (facts_in owned.now) id) }
{
    owned.binary_search_by_key(&id, |owned| owned.id)
}

// The ids and owners of these facts.
fn listed(alloc: Global, facts: &[Fact]) -> Result<Vec<Owned>, OutOfMemory>
    requires { Ascend facts.now }
    ensures ascend { IfOk result (λ all. Ascend (facts_in all.items)) }
    ensures facts { IfOk result (λ all. facts_in all.items ≡ kept_of CensusKind facts.now) }
{
    let mut all = Vec::new(alloc);
    for fact in facts {
        all.push(owned_of(fact))?;
    }
    Ok(all)
}
