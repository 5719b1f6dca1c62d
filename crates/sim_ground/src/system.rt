//! The system: the obstructions, and beside them the layers over each cell, the grid of the open cells and its labels.

ghost use Rattle.std.specs.Prelude.{[], MatchOption, None, OnErr, OnOk, option_copied, ◌≡◌};
ghost use Rattle.sim_ground.specs.{Layers.AreLayers, Layers.AreRegions, Opening.IsKept, Opening.builds};
ghost use Rattle.sim_system.specs.{Notes.NoteFits, Notes.noted, declared.kind.Kind.TheVariants.Ground as GroundKind};

use crate::drawn::{Drawn, draw};
use crate::free::is_free;
use crate::opened::Opened;
use crate::rooms::{Lent, Rooms};
use crate::spot::nearest;
use crate::way::way_over;
use sim_base::{Global, Land, OutOfMemory};
use sim_fact_lists::{Kept, id_of, part_after};
use sim_path::Labels;
use sim_system::{Answer, Ask, Fact, Kind, Note, System};
use std::rc::Rc;

/// Keeps the rectangle of each entity that is an obstruction, which cells are open, and the rooms of searches.
#[derive(Drop)]
pub struct Ground {
    kept: Kept,
    opened: Option<Opened>,
    rooms: Lent,
    ghost over: { IsKept kept.land kept.facts.items opened },
}

impl Ground {
    /// It has no land and no facts, and was never built. It keeps the allocator, and takes no memory yet.
    pub fn new(alloc: Global) -> Ground
        ensures { ⟦<Ground as System>⟧.meaning result ≡ record { kind = GroundKind; land = None; facts = []; rebuilds = 0 } }
    {
        Ground {
            kept: Kept::new(alloc),
            opened: None,
            rooms: Lent::Own(Rooms::new()),
        }
    }

    /// The same in rooms that several share.
    pub fn sharing(alloc: Global, rooms: Rc<Rooms>) -> Ground
        ensures { ⟦<Ground as System>⟧.meaning result ≡ record { kind = GroundKind; land = None; facts = []; rebuilds = 0 } }
    {
        Ground {
            kept: Kept::new(alloc),
            opened: None,
            rooms: Lent::Shared(rooms),
        }
    }

    /// Lends how many closed rectangles and obstructions cover each cell, by z, then x; nothing where the system was not built.
    pub fn layers(&self) -> &[u16]
        ensures { AreLayers (⟦<Ground as System>⟧.meaning self.now).land (⟦<Ground as System>⟧.meaning self.now).facts result.now }
    {
        match &self.opened {
            Some(opened) => opened.cover.layers.as_slice(),
            None => &[],
        }
    }

    /// Lends the labels of the open cells, each the least place, `z * width + x`, of the cells that are joined to it: two of them
    /// have one label just where steps to the east, north, west and south over open cells join them. There are none where the
    /// system was not built.
    pub fn regions(&self) -> Option<&Labels>
        ensures { AreRegions (⟦<Ground as System>⟧.meaning self.now).land (⟦<Ground as System>⟧.meaning self.now).facts (option_copied result) }
    {
        match &self.opened {
            Some(opened) => Some(&opened.labels),
            None => None,
        }
    }
}

impl Ground {
    // Forgets the land and all facts. What was drawn of them goes into the rooms.
    fn set_aside(&mut self)
        ensures land { self.new.kept.land ≡ None }
        ensures facts { self.new.kept.facts.items ≡ [] }
        ensures rebuilds { self.new.kept.rebuilds ≡ self.old.kept.rebuilds }
        ensures opened { self.new.opened ≡ None }
    {
        let opened = self.opened.take();
        let land = self.kept.land.take();
        if let (Some(land), Some(opened)) = (land, opened) {
            let facts = std::mem::replace(&mut self.kept.facts, Vec::new(self.kept.alloc));
            self.rooms
                .rooms()
                .put_drawn(Drawn::new(land, facts, opened));
        }
        self.kept.clear();
    }

    // Takes up a note by which an obstruction comes or goes. Room for the fact is made first, so that all else may be left as
    // it was.
    fn built_on(&mut self, note: &Note) -> Result<(), OutOfMemory>
        requires { MatchOption self.old.kept.land ⊥ (λ l. NoteFits GroundKind l self.old.kept.facts.items note.now) }
        ensures facts { OnOk result (self.new.kept.facts.items ≡ noted GroundKind self.old.kept.facts.items note.now) }
        ensures same { OnErr result (self.new.kept.facts.items ≡ self.old.kept.facts.items) }
        ensures land { self.new.kept.land ≡ self.old.kept.land }
        ensures rebuilds { self.new.kept.rebuilds ≡ self.old.kept.rebuilds }
    {
        self.kept.make_room()?;
        let before = self.kept.find(id_of(note));
        let after = part_after(Kind::Ground, before, note);
        let Some(opened) = &mut self.opened else {
            unreachable!()
        };
        opened.turn(self.kept.alloc, &before, &after)?;
        self.kept.on(Kind::Ground, note)
    }
}

impl System for Ground {
    ghost meaning = { λ s. record { kind = GroundKind; land = s.kept.land; facts = s.kept.facts.items; rebuilds = s.kept.rebuilds } };

    fn kind(&self) -> Kind {
        Kind::Ground
    }

    fn clear(&mut self) {
        self.set_aside();
    }

    fn rebuild(&mut self, land: &Land, facts: &[Fact]) -> Result<(), OutOfMemory> {
        self.set_aside();
        self.kept.rebuild(Kind::Ground, land, facts)?;
        let facts = self.kept.facts.as_slice();
        match draw(self.kept.alloc, self.rooms.rooms(), land, facts) {
            Ok(opened) => self.opened = Some(opened),
            Err(error) => {
                self.kept.clear();
                return Err(error);
            }
        }
        Ok(())
    }

    fn on(&mut self, note: &Note) -> Result<(), OutOfMemory> {
        if builds_of(note) {
            self.built_on(note)
        } else {
            self.kept.on(Kind::Ground, note)
        }
    }

    fn ask(&self, ask: &Ask) -> Result<Answer, OutOfMemory> {
        let (Some(land), Some(opened)) = (&self.kept.land, &self.opened) else {
            unreachable!()
        };
        match ask {
            Ask::Open { cell } => Ok(Answer::Truth {
                yes: opened.cover.grid.open(*cell),
            }),
            Ask::Free { rect } => Ok(Answer::Truth {
                yes: is_free(land, self.kept.facts.as_slice(), rect),
            }),
            Ask::Spot { at } => Ok(Answer::Place {
                cell: nearest(&opened.cover.grid, at),
            }),
            Ask::Way { start, goal } => Ok(Answer::Found {
                way: way_over(self.kept.alloc, self.rooms.rooms(), opened, start, goal)?,
            }),
            _ => unreachable!(),
        }
    }

    fn rebuilds(&self) -> u64 {
        self.kept.rebuilds
    }
}

// Whether an obstruction comes or goes.
fn builds_of(note: &Note) -> bool
    ensures { result ≡ builds note.now }
{
    match note {
        Note::Born { fact } => fact.rect.is_some(),
        Note::Gone { fact } => fact.rect.is_some(),
        _ => false,
    }
}
