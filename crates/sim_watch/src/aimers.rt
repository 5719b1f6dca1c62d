//! The target of each entity, in a list by id. One that has no target stays there until it is gone, so that nothing moves along
//! the list when it takes the next. An entity is looked for first where the last one was found, and a little behind it.

ghost use Rattle.{sim_fact_lists.specs.Changes.{Ascend, Belongs, Stands, with_only}, sim_system.specs.declared.kind.Kind.TheVariants.Watch as WatchKind};
ghost use Rattle.{sim_system.specs.Notes.{aim_of, kept, kept_of}, sim_watch.specs.Aimers.{Aims, facts_in, told_in}};
ghost use Rattle.std.specs.Prelude.{IfOk, IfSome, MatchResult, None, OnOk, vec_capacity, vec_len, [], ◌<◌, ◌≡◌};

use crate::aimer::Aimer;
use sim_base::{Global, OutOfMemory};
use sim_system::Fact;
use std::cell::Cell;

// How many entities are looked at from a place on.
const AHEAD: usize = 8;

/// Entities and their targets, ascending by id. The place of the last that was found is a hint for the next.
#[derive(Drop)]
pub struct Aimers {
    pub aimers: Vec<Aimer>,
    near: Cell<usize>,
    ghost ascend: { Ascend (told_in aimers.items) },
}

impl Aimers {
    /// Nobody. It keeps the allocator, and takes no memory yet.
    pub fn new(alloc: Global) -> Aimers
        ensures { result.aimers.items ≡ [] }
    {
        Aimers {
            aimers: Vec::new(alloc),
            near: Cell::new(0),
        }
    }

    /// Those of these facts.
    pub fn of(alloc: Global, facts: &[Fact]) -> Result<Aimers, OutOfMemory>
        requires { Ascend facts.now }
        ensures { IfOk result (λ all. facts_in all.aimers.items ≡ kept_of WatchKind facts.now) }
    {
        let aimers = listed(alloc, facts)?;
        Ok(Aimers {
            aimers,
            near: Cell::new(0),
        })
    }

    // Where an entity stands, if that is where the last one was found or a little behind it.
    fn place_ahead(&self, id: u32) -> Option<usize>
        ensures { IfSome result (Stands (told_in self.now.aimers.items) id) }
    {
        let near = self.near.get();
        for at in near..near.saturating_add(AHEAD) {
            match self.aimers.as_slice().get(at) {
                Some(aimer) if aimer.id < id => {}
                Some(aimer) if aimer.id == id => return Some(at),
                _ => return None,
            }
        }
        None
    }

    // Where an entity stands, or where it would be put.
    fn place_of(&self, id: u32) -> Result<usize, usize>
        ensures { MatchResult result (Stands (told_in self.now.aimers.items) id) (Belongs (told_in self.now.aimers.items) id) }
    {
        let place = match self.place_ahead(id) {
            Some(at) => Ok(at),
            None => place_by_halves(self.aimers.as_slice(), id),
        };
        if let Ok(at) = place {
            self.near.set(at);
        }
        place
    }

    /// Makes room for one more.
    pub fn make_room(&mut self) -> Result<(), OutOfMemory>
        ensures same { self.new.aimers.items ≡ self.old.aimers.items }
        ensures room { OnOk result (vec_len self.new.aimers < vec_capacity self.new.aimers) }
    {
        self.aimers.reserve(1)?;
        Ok(())
    }

    /// An entity has this target, or none. The room was made before. Answers the target that it had, or 0.
    pub fn aim(&mut self, id: u32, target: u32) -> u32
        requires { vec_len self.old.aimers < vec_capacity self.old.aimers }
        ensures { Aims id result (kept WatchKind (aim_of id target)) self.old.aimers.items self.new.aimers.items }
    {
        match self.place_of(id) {
            Ok(at) => {
                let from = self.aimers[at].target;
                self.aimers[at] = Aimer { id, target };
                from
            }
            Err(at) => {
                let _ = self.aimers.insert(at, Aimer { id, target });
                0
            }
        }
    }

    /// An entity has no target any more, and keeps its place in the list. Answers the target that it had, or 0.
    pub fn let_go(&mut self, id: u32) -> u32
        ensures aims { Aims id result None self.old.aimers.items self.new.aimers.items }
    {
        match self.place_of(id) {
            Ok(at) => {
                let target = self.aimers[at].target;
                self.aimers[at] = Aimer { id, target: 0 };
                target
            }
            Err(_) => 0,
        }
    }

    /// An entity is gone, and has no place in the list any more. Answers the target that it had, or 0.
    pub fn leave(&mut self, id: u32) -> u32
        ensures aims { Aims id result None self.old.aimers.items self.new.aimers.items }
        ensures told { told_in self.new.aimers.items ≡ with_only id None (told_in self.old.aimers.items) }
    {
        match self.place_of(id) {
            Ok(at) => {
                let target = self.aimers[at].target;
                self.aimers.remove(at);
                target
            }
            Err(_) => 0,
        }
    }
}

// The same by halves.
fn place_by_halves(aimers: &[Aimer], id: u32) -> Result<usize, usize>
    requires { Ascend (told_in aimers.now) }
    ensures { MatchResult result (Stands (told_in aimers.now) id) (Belongs (told_in aimers.now) id) }
{
    aimers.binary_search_by_key(&id, |aimer| aimer.id)
}

// The ids and targets of these facts.
fn listed(alloc: Global, facts: &[Fact]) -> Result<Vec<Aimer>, OutOfMemory>
    requires { Ascend facts.now }
    ensures ascend { IfOk result (λ all. Ascend (told_in all.items)) }
    ensures facts { IfOk result (λ all. facts_in all.items ≡ kept_of WatchKind facts.now) }
{
    let mut all = Vec::new(alloc);
    for fact in facts {
        all.push(Aimer {
            id: fact.id,
            target: fact.target,
        })?;
    }
    Ok(all)
}
