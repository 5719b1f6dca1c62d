//! The system: the owner of each entity, and the number of each owner's entities beside them.

ghost use Rattle.std.specs.Prelude.{[], length, None, slice_index, ◌≡◌};
ghost use Rattle.sim_system.specs.declared.kind.Kind.TheVariants.{Census as CensusKind};
ghost use Rattle.{sim_census.specs.Owners.AreCounts, sim_census.specs.Owners.facts_in, sim_fact_lists.specs.Changes.HoldsIfAny};

use crate::counts::{counts_of, join, leave};
use crate::owners::Owners;
use sim_base::{Global, Land, OutOfMemory};
use sim_fact_lists::{copy_of, id_of, part_after};
use sim_system::{Answer, Ask, Fact, Kind, Note, System};

/// Keeps the owner of each entity, and how many each owner has.
#[derive(Drop)]
pub struct Census {
    alloc: Global,
    land: Option<Land>,
    owners: Owners,
    counts: [u32; 9],
    rebuilds: u64,
    ghost held: { HoldsIfAny land (facts_in owners.owned.items) },
    ghost counted: { AreCounts (facts_in owners.owned.items) counts },
}

impl Census {
    /// It has no land and no facts, and was never built. It keeps the allocator, and takes no memory yet.
    pub fn new(alloc: Global) -> Census
        ensures { ⟦<Census as System>⟧.meaning result ≡ record { kind = CensusKind; land = None; facts = []; rebuilds = 0 } }
    {
        Census {
            alloc,
            land: None,
            owners: Owners::new(alloc),
            counts: [0; 9],
            rebuilds: 0,
        }
    }

    /// Lends how many entities each owner has; each number is 0 where it was not built.
    pub fn counts(&self) -> &[u32; 9]
        ensures { AreCounts (⟦<Census as System>⟧.meaning self.now).facts result.now }
    {
        &self.counts
    }

    // Forgets the land and all facts.
    fn forget(&mut self)
        ensures land { self.new.land ≡ None }
        ensures facts { self.new.owners.owned.items ≡ [] }
        ensures rebuilds { self.new.rebuilds ≡ self.old.rebuilds }
    {
        self.land = None;
        self.owners = Owners::new(self.alloc);
        self.counts = [0; 9];
    }
}

impl System for Census {
    ghost meaning = { λ s. record { kind = CensusKind; land = s.land; facts = facts_in s.owners.owned.items; rebuilds = s.rebuilds } };

    fn kind(&self) -> Kind {
        Kind::Census
    }

    fn clear(&mut self) {
        self.forget();
    }

    fn rebuild(&mut self, land: &Land, facts: &[Fact]) -> Result<(), OutOfMemory> {
        self.forget();
        self.rebuilds = self.rebuilds.saturating_add(1);
        let copied = copy_of(land)?;
        let owners = Owners::of(self.alloc, facts)?;
        self.counts = counts_of(facts);
        self.owners = owners;
        self.land = Some(copied);
        Ok(())
    }

    fn on(&mut self, note: &Note) -> Result<(), OutOfMemory> {
        let id = id_of(note);
        let before = self.owners.find(id);
        let after = part_after(Kind::Census, before, note);
        self.owners.put(id, &after)?;
        leave(&mut self.counts, &before);
        join(&mut self.counts, &after);
        Ok(())
    }

    fn ask(&self, ask: &Ask) -> Result<Answer, OutOfMemory> {
        match ask {
            Ask::Count { owner } => Ok(Answer::Number {
                n: number(&self.counts, *owner),
            }),
            _ => unreachable!(),
        }
    }

    fn rebuilds(&self) -> u64 {
        self.rebuilds
    }
}

// The number of an owner, which is 0 where it is none of the nine.
fn number(counts: &[u32; 9], owner: u8) -> u32
    ensures number { result ≡ slice_index counts.now owner }
    ensures full { length counts.now ≡ 9 }
{
    match counts.get(usize::from(owner)) {
        Some(n) => *n,
        None => 0,
    }
}
