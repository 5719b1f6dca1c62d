//! Each of the four systems beside a plain list of what it is told, all through a battle: what it lends after each note, and what
//! it answers, is what the list says.

ghost use Rattle.std.specs.Prelude.{◌≡◌, IfOk};

use crate::tests::battle::{battle, is_battle, range};
use crate::tests::lending::{Lends, mixed, mixed_list};
use crate::tests::plain::Plain;
use sim_base::{Global, Land, OutOfMemory};
use sim_census::Census;
use sim_ground::Ground;
use sim_system::{Answer, Ask, Fact, Kind, Note, Rig, System};
use sim_watch::Watch;
use std::cell::Cell;
use std::rc::Rc;
use std::test::Fail;
use test_runs::{Printed, add_rig, rig_of};

/// How often a system and its list were compared, how often they differed, and how often somebody was seen and aimed at.
#[derive(Drop)]
struct Tally {
    compared: Cell<u32>,
    differed: Cell<u32>,
    seen: Cell<u32>,
    aimed_at: Cell<u32>,
}

impl Tally {
    fn new() -> Tally {
        Tally {
            compared: Cell::new(0),
            differed: Cell::new(0),
            seen: Cell::new(0),
            aimed_at: Cell::new(0),
        }
    }

    // Notes whether a system and its list say the same.
    fn compare(&self, system: u64, list: u64) {
        count(&self.compared);
        if system != list {
            count(&self.differed);
        }
    }

    // Whether they were compared often and never differed, and somebody was seen and aimed at.
    fn is_alike(&self) -> bool {
        self.differed.get() == 0
            && self.compared.get() > 20
            && self.seen.get() > 0
            && self.aimed_at.get() > 0
    }

    // Notes what was asked, where the answer names anybody.
    fn name(&self, ask: &Ask, answer: &Answer) {
        let Answer::Many { ids } = answer else {
            return;
        };
        if ids.as_slice().is_empty() {
            return;
        }
        match ask {
            Ask::Seen { .. } => count(&self.seen),
            Ask::Watchers { .. } => count(&self.aimed_at),
            _ => {}
        }
    }
}

// Counts one more.
fn count(cell: &Cell<u32>) {
    cell.set(cell.get().wrapping_add(1));
}

// An answer, mixed into one number.
fn told(answer: &Answer) -> u64 {
    match answer {
        Answer::Truth { yes } => mixed(0, u32::from(*yes)),
        Answer::Many { ids } => mixed_list(0, ids.as_slice()),
        Answer::Number { n } => mixed(0, *n),
        _ => 0,
    }
}

/// A system and a list that is told the same.
#[derive(Drop)]
struct Twin<S: System + Lends> {
    system: S,
    plain: Plain,
    tally: Rc<Tally>,
}

impl<S: System + Lends> Twin<S> {
    fn new(alloc: Global, system: S, keeps: bool, tally: &Rc<Tally>) -> Result<Twin<S>, OutOfMemory>
        ensures { IfOk result (λ twin. ⟦<Twin<S> as System>⟧.meaning twin ≡ S.meaning system) }
    {
        let tally = tally.clone()?;
        let plain = Plain::new(alloc, system.kind(), keeps);
        Ok(Twin {
            system,
            plain,
            tally,
        })
    }

    // Compares what is lent.
    fn compare(&self) {
        self.tally.compare(self.system.lent(), self.plain.lent());
    }
}

impl<S: System + Lends> System for Twin<S> {
    ghost meaning = { λ twin. S.meaning twin.system };

    fn kind(&self) -> Kind {
        self.system.kind()
    }

    fn clear(&mut self) {
        self.system.clear();
        self.plain.clear();
    }

    fn rebuild(&mut self, land: &Land, facts: &[Fact]) -> Result<(), OutOfMemory> {
        self.system.rebuild(land, facts)?;
        let _ = self.plain.build(land, facts);
        self.compare();
        Ok(())
    }

    fn on(&mut self, note: &Note) -> Result<(), OutOfMemory> {
        self.system.on(note)?;
        self.plain.hear(note);
        self.compare();
        Ok(())
    }

    fn ask(&self, ask: &Ask) -> Result<Answer, OutOfMemory> {
        let answer = self.system.ask(ask)?;
        if let Some(list) = self.plain.answer(ask) {
            self.tally.compare(told(&answer), list);
            self.tally.name(ask, &answer);
        }
        Ok(answer)
    }

    fn rebuilds(&self) -> u64 {
        self.system.rebuilds()
    }
}

// Plays the battle on such systems, of which the range keeps whom each sees, or looks.
fn on_twins(alloc: Global, keeps: bool, tally: &Rc<Tally>) -> Result<Printed, OutOfMemory> {
    let mut rigs = Vec::with_capacity(alloc, 8)?;
    for _ in 0..8u8 {
        let rig = rig_of!(
            alloc;
            Twin::new(alloc, Ground::new(alloc), keeps, tally)?,
            Twin::new(alloc, range(alloc, keeps), keeps, tally)?,
            Twin::new(alloc, Watch::new(alloc), keeps, tally)?,
            Twin::new(alloc, Census::new(alloc), keeps, tally)?
        );
        add_rig(&mut rigs, rig)?;
    }
    battle(alloc, rigs)
}

// Whether the battle comes to its states on such systems, and they and their lists say the same, with somebody seen and aimed at.
fn say_the_same(alloc: Global, keeps: bool) -> Result<bool, OutOfMemory> {
    let tally = Rc::new(alloc, Tally::new())?;
    let printed = on_twins(alloc, keeps, &tally)?;
    Ok(is_battle(&printed) && tally.is_alike())
}

#[test]
fn systems_say_what_a_plain_list_says(rt: HostRuntime) -> Result<(), Fail> {
    for keeps in [true, false] {
        assert!(rt;
            say_the_same(rt.alloc(), keeps)?,
            "where keeping is {keeps}"
        );
    }
    Ok(())
}
