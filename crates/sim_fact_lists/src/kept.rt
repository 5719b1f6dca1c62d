//! The land and the facts of a system.

ghost use Rattle.std.specs.Prelude.{[], IsOk, IsSome, MatchOption, None, OnErr, OnOk, Some, vec_capacity, vec_len, ◌<◌, ◌≡◌};
ghost use Rattle.sim_system.specs.Notes.{NoteFits, fact_with, kept_of, noted};
ghost use Rattle.{sim_base.specs.Limits.IsLand, sim_fact_lists.specs.Changes.HoldsIfAny, sim_system.specs.Meanings.one_more, sim_system.specs.Notes.AreInRange};

use crate::edit::{place_near, put};
use crate::land::copy_of;
use crate::part::{all_kept, id_of, part_after};
use sim_base::{Global, Land, OutOfMemory};
use sim_system::{Fact, Kind, Note};
use std::cell::Cell;

/// What a system keeps: its land, its facts by id, and how often it was built. The place of the last fact that was looked for
/// is a hint for the next, which is mostly just after it.
#[derive(Drop)]
pub struct Kept {
    pub alloc: Global,
    pub land: Option<Land>,
    pub facts: Vec<Fact>,
    pub rebuilds: u64,
    near: Cell<usize>,
    ghost held: { HoldsIfAny land facts.items },
}

impl Kept {
    /// No land and no facts, never built.
    pub fn new(alloc: Global) -> Kept
        ensures land { result.land ≡ None }
        ensures facts { result.facts.items ≡ [] }
        ensures rebuilds { result.rebuilds ≡ 0 }
    {
        Kept {
            alloc,
            land: None,
            facts: Vec::new(alloc),
            rebuilds: 0,
            near: Cell::new(0),
        }
    }

    /// Forgets the land and all facts.
    pub fn clear(&mut self)
        ensures land { self.new.land ≡ None }
        ensures facts { self.new.facts.items ≡ [] }
        ensures rebuilds { self.new.rebuilds ≡ self.old.rebuilds }
    {
        self.land = None;
        self.facts = Vec::new(self.alloc);
    }

    /// Keeps the land, and of the facts what a kind keeps. After an error it is cleared.
    pub fn rebuild(&mut self, kind: Kind, land: &Land, facts: &[Fact]) -> Result<(), OutOfMemory>
        requires land { IsLand land.now }
        requires facts { AreInRange land.now facts.now }
        ensures land { OnOk result (self.new.land ≡ Some land.now) }
        ensures facts { OnOk result (self.new.facts.items ≡ kept_of kind facts.now) }
        ensures no_land { OnErr result (self.new.land ≡ None) }
        ensures no_facts { OnErr result (self.new.facts.items ≡ []) }
        ensures counted { self.new.rebuilds ≡ one_more self.old.rebuilds }
    {
        self.clear();
        self.rebuilds = self.rebuilds.saturating_add(1);
        let copied = copy_of(land)?;
        self.facts = all_kept(self.alloc, kind, facts)?;
        self.land = Some(copied);
        Ok(())
    }

    /// What is kept of an id. Where it was found is kept for the next.
    pub fn find(&self, id: u32) -> Option<Fact>
        requires { IsSome self.now.land }
        ensures { result ≡ fact_with self.now.facts.items id }
    {
        let facts = self.facts.as_slice();
        match place_near(facts, id, self.near.get()) {
            Ok(at) => {
                self.near.set(at);
                Some(facts[at])
            }
            Err(_) => None,
        }
    }

    /// Makes room for one fact more.
    pub fn make_room(&mut self) -> Result<(), OutOfMemory>
        ensures room { OnOk result (vec_len self.new.facts < vec_capacity self.new.facts) }
        ensures facts { self.new.facts.items ≡ self.old.facts.items }
        ensures land { self.new.land ≡ self.old.land }
        ensures rebuilds { self.new.rebuilds ≡ self.old.rebuilds }
    {
        self.facts.reserve(1)?;
        Ok(())
    }

    /// Changes the facts of a kind as a note says. Where there is room for one fact more, it takes no memory.
    pub fn on(&mut self, kind: Kind, note: &Note) -> Result<(), OutOfMemory>
        requires { MatchOption self.old.land ⊥ (λ l. NoteFits kind l self.old.facts.items note.now) }
        ensures facts { OnOk result (self.new.facts.items ≡ noted kind self.old.facts.items note.now) }
        ensures same { OnErr result (self.new.facts.items ≡ self.old.facts.items) }
        ensures land { self.new.land ≡ self.old.land }
        ensures rebuilds { self.new.rebuilds ≡ self.old.rebuilds }
        ensures room { vec_len self.old.facts < vec_capacity self.old.facts → IsOk result }
    {
        let id = id_of(note);
        let part = part_after(kind, self.find(id), note);
        put(&mut self.facts, id, self.near.get(), &part)
    }
}
