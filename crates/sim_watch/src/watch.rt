//! The system: the target of each entity, and beside them a list of ids per target.

ghost use Rattle.std.specs.Prelude.{[], IfOk, None, OnErr, OnOk, ◌≡◌};
ghost use Rattle.sim_fact_lists.specs.{Changes.with_only, Groups.AreGroups, Groups.group_with, Groups.listed};
ghost use Rattle.sim_system.specs.{Meanings.watchers_among, Notes.aim_of, Notes.kept, declared.kind.Kind.TheVariants.Watch as WatchKind};
ghost use Rattle.sim_watch.specs.Aimers.{aim_key, facts_in, told_in};

use crate::aimers::Aimers;
use crate::aims::{groups_of, join, leave, make_room};
use sim_base::{Global, Ids, Land, OutOfMemory};
use sim_fact_lists::{Groups, copy_of};
use sim_system::{Answer, Ask, Fact, Kind, Note, System};

/// Keeps the target of each entity that has one, and who aims at each target.
#[derive(Drop)]
pub struct Watch {
    alloc: Global,
    land: Option<Land>,
    aimers: Aimers,
    groups: Groups,
    rebuilds: u64,
    ghost listed: { AreGroups aim_key (facts_in aimers.aimers.items) groups.groups.items },
}

impl Watch {
    ghost use Rattle.sim_watch.specs.Watches.{StaysBuilt};

    /// It has no land and no facts, and was never built. It keeps the allocator, and takes no memory yet.
    pub fn new(alloc: Global) -> Watch
        ensures { ⟦<Watch as System>⟧.meaning result ≡ record { kind = WatchKind; land = None; facts = []; rebuilds = 0 } }
    {
        Watch {
            alloc,
            land: None,
            aimers: Aimers::new(alloc),
            groups: Groups::new(alloc),
            rebuilds: 0,
        }
    }

    /// Lends the ids of those who aim at an entity, ascending. There are none for no target, and where it was not built.
    pub fn list(&self, id: u32) -> &[u32]
        ensures { result.now ≡ watchers_among (⟦<Watch as System>⟧.meaning self.now).facts id }
    {
        if id == 0 { &[] } else { self.groups.at(id) }
    }

    // Forgets the land and all facts.
    fn forget(&mut self)
        ensures land { self.new.land ≡ None }
        ensures facts { self.new.aimers.aimers.items ≡ [] }
        ensures rebuilds { self.new.rebuilds ≡ self.old.rebuilds }
    {
        self.land = None;
        self.aimers = Aimers::new(self.alloc);
        self.groups = Groups::new(self.alloc);
    }

    // An entity has this target, or none. All room is made first, so that a refusal leaves all as it was. To let go wants none.
    fn aim(&mut self, id: u32, to: u32) -> Result<(), OutOfMemory>
        ensures ok { OnOk result (facts_in self.new.aimers.aimers.items ≡ with_only id (kept WatchKind (aim_of id to))
            (facts_in self.old.aimers.aimers.items)) }
        ensures err { OnErr result (facts_in self.new.aimers.aimers.items ≡ facts_in self.old.aimers.aimers.items) }
        ensures stays { StaysBuilt self.old self.new }
    {
        if to == 0 {
            let from = self.aimers.let_go(id);
            leave(&mut self.groups, id, from);
            return Ok(());
        }
        self.aimers.make_room()?;
        make_room(&mut self.groups, self.alloc, to)?;
        let from = self.aimers.aim(id, to);
        leave(&mut self.groups, id, from);
        join(&mut self.groups, id, to);
        Ok(())
    }

    // An entity is gone, with its place among those who aim, and so is the list of those who aimed at it, which is empty by then.
    // That is rare beside aims, in whose way it does not stand.
    #[inline(never)]
    fn gone(&mut self, id: u32)
        ensures facts { facts_in self.new.aimers.aimers.items ≡ with_only id None (facts_in self.old.aimers.aimers.items) }
        ensures told { told_in self.new.aimers.aimers.items ≡ with_only id None (told_in self.old.aimers.aimers.items) }
        ensures group { listed id self.new.groups.groups.items ≡ [] → group_with id self.new.groups.groups.items ≡ None }
        ensures stays { StaysBuilt self.old self.new }
    {
        let from = self.aimers.leave(id);
        leave(&mut self.groups, id, from);
        self.groups.forget(id);
    }
}

impl System for Watch {
    ghost meaning = { λ s. record { kind = WatchKind; land = s.land; facts = facts_in s.aimers.aimers.items; rebuilds = s.rebuilds } };

    fn kind(&self) -> Kind {
        Kind::Watch
    }

    fn clear(&mut self) {
        self.forget();
    }

    fn rebuild(&mut self, land: &Land, facts: &[Fact]) -> Result<(), OutOfMemory> {
        self.forget();
        self.rebuilds = self.rebuilds.saturating_add(1);
        let copied = copy_of(land)?;
        let aimers = Aimers::of(self.alloc, facts)?;
        let groups = groups_of(self.alloc, facts)?;
        self.land = Some(copied);
        self.aimers = aimers;
        self.groups = groups;
        Ok(())
    }

    fn on(&mut self, note: &Note) -> Result<(), OutOfMemory> {
        match note {
            Note::Born { fact } => self.aim(fact.id, fact.target),
            Note::Gone { fact } => {
                self.gone(fact.id);
                Ok(())
            }
            Note::Moved { .. } => Ok(()),
            Note::Owned { .. } => Ok(()),
            Note::Aimed { id, from: _, to } => self.aim(*id, *to),
        }
    }

    fn ask(&self, ask: &Ask) -> Result<Answer, OutOfMemory> {
        match ask {
            Ask::Watchers { id } => Ok(Answer::Many {
                ids: watchers(self, *id)?,
            }),
            _ => unreachable!(),
        }
    }

    fn rebuilds(&self) -> u64 {
        self.rebuilds
    }
}

// A list of what is lent of an entity.
fn watchers(watch: &Watch, id: u32) -> Result<Ids, OutOfMemory>
    ensures { IfOk result (λ ids. ids ≡ watchers_among (⟦<Watch as System>⟧.meaning watch.now).facts id) }
{
    Ok(Ids::from_items(Vec::from_slice(watch.alloc, watch.list(id))?))
}
