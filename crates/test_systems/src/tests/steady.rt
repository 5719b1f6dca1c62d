//! Systems that are told a note again where they found no memory for it. With memory for all, the battle here is one like
//! others. Where one allocation is made to fail, whichever it is, a system lends after its refusal what it lent before, and the
//! battle comes to the same states, unless the run wanted that memory elsewhere.

ghost use Rattle.std.specs.Prelude.{◌≡◌, IfOk};

use crate::tests::battle::{battle, is_battle, range};
use crate::tests::lending::Lends;
use sim_base::{Global, Land, OutOfMemory};
use sim_census::Census;
use sim_ground::Ground;
use sim_system::{Answer, Ask, Fact, Kind, Note, Rig, System};
use sim_watch::Watch;
use std::cell::Cell;
use std::rc::Rc;
use std::test::Fail;
use test_runs::{Printed, add_rig, rig_of};

/// A system that is told again what it refused. It counts the refusals after which it lent something else.
#[derive(Drop)]
struct Steady<S: System + Lends> {
    system: S,
    changes: Rc<Cell<u32>>,
}

impl<S: System + Lends> Steady<S> {
    fn new(system: S, changes: &Rc<Cell<u32>>) -> Result<Steady<S>, OutOfMemory>
        ensures { IfOk result (λ steady. ⟦<Steady<S> as System>⟧.meaning steady ≡ S.meaning system) }
    {
        let changes = changes.clone()?;
        Ok(Steady { system, changes })
    }
}

impl<S: System + Lends> System for Steady<S> {
    ghost meaning = { λ steady. S.meaning steady.system };

    fn kind(&self) -> Kind {
        self.system.kind()
    }

    fn clear(&mut self) {
        self.system.clear();
    }

    fn rebuild(&mut self, land: &Land, facts: &[Fact]) -> Result<(), OutOfMemory> {
        self.system.rebuild(land, facts)
    }

    fn on(&mut self, note: &Note) -> Result<(), OutOfMemory> {
        let before = self.system.lent();
        if self.system.on(note).is_ok() {
            return Ok(());
        }
        if self.system.lent() != before {
            self.changes.set(self.changes.get().saturating_add(1));
        }
        self.system.on(note)
    }

    fn ask(&self, ask: &Ask) -> Result<Answer, OutOfMemory> {
        self.system.ask(ask)
    }

    fn rebuilds(&self) -> u64 {
        self.system.rebuilds()
    }
}

// Plays it on steady systems, of which the range keeps whom each sees, or looks.
fn on_steady(alloc: Global, keeps: bool, changes: &Rc<Cell<u32>>) -> Result<Printed, OutOfMemory> {
    let mut rigs = Vec::with_capacity(alloc, 8)?;
    for _ in 0..8u8 {
        let rig = rig_of!(
            alloc;
            Steady::new(Ground::new(alloc), changes)?,
            Steady::new(range(alloc, keeps), changes)?,
            Steady::new(Watch::new(alloc), changes)?,
            Steady::new(Census::new(alloc), changes)?
        );
        add_rig(&mut rigs, rig)?;
    }
    battle(alloc, rigs)
}

// Whether it comes to its states, and nothing that was refused has changed anything.
fn is_steady(alloc: Global, keeps: bool) -> Result<bool, OutOfMemory> {
    let changes = Rc::new(alloc, Cell::new(0))?;
    let printed = on_steady(alloc, keeps, &changes)?;
    Ok(is_battle(&printed) && changes.get() == 0)
}

#[test]
fn a_refused_note_changes_nothing(rt: HostRuntime) -> Result<(), Fail> {
    for keeps in [true, false] {
        assert!(rt; is_steady(rt.alloc(), keeps)?, "where keeping is {keeps}");
    }
    Ok(())
}
