//! Whom an entity sees, looked for among the buckets: at a question, where the system is built, and where the entity itself has
//! changed.

ghost use Rattle.std.specs.Prelude.{◌≡◌, IfOk, IsSome, MatchOption};
ghost use Rattle.sim_range.specs.{Common.fact_with, Common.IsHeld, Common.seen_among, Sights.sight};

use crate::crowd::Crowd;
use crate::sight::Sight;
use crate::watchers::mask_of;
use crate::within::Circle;
use sim_base::{Global, Ids, OutOfMemory};
use sim_fact_lists::find;
use sim_system::Fact;

impl Crowd<'_> {
    /// The enemies that an entity sees; none, where it cannot attack. It need not be one of these facts.
    pub fn sight_of(&self, alloc: Global, watcher: &Fact) -> Result<Sight, OutOfMemory>
        requires watcher { IsHeld self.now.held.land.now watcher.now }
        ensures { IfOk result (λ own. own.ids.items ≡ sight self.now.held.land.now self.now.held.facts.now watcher.now) }
    {
        let Some(vision) = watcher.vision else {
            return Ok(Sight::new(alloc));
        };
        let circle = Circle {
            at: watcher.at,
            radius: vision,
            mask: mask_of(self.held.land, watcher),
        };
        let near = self.within(alloc, &circle)?;
        let mut own = Sight {
            ids: near.into_items(),
        };
        own.turn(watcher.id, false);
        Ok(own)
    }

    /// The enemies that one of these facts sees.
    pub fn seen(&self, alloc: Global, id: u32) -> Result<Ids, OutOfMemory>
        requires sees { MatchOption (fact_with self.now.held.facts.now id) ⊥ (λ fact. IsSome fact.vision) }
        ensures { IfOk result (λ ids. ids ≡ seen_among self.now.held.land.now self.now.held.facts.now (fact_with self.now.held.facts.now id)) }
    {
        let Some(watcher) = find(self.held.facts, id) else {
            unreachable!()
        };
        let own = self.sight_of(alloc, &watcher)?;
        Ok(Ids::from_items(own.ids))
    }
}
