//! What a note changes of what is seen: found in the buckets about the place where the entity stood and about that where it
//! stands, before anything is changed.

ghost use Rattle.std.specs.Prelude.{All, IfSome, OnOk, Some, ◌++◌, ◌≡◌};
ghost use Rattle.sim_range.specs.Sights.{AreChanging, AreHeldOn, AreInView, AreOnGround, AreSights, SeesFrom, SeesWithin, sight, turned_seen, turned_watchers};
ghost use Rattle.sim_range.specs.{Common.IsHeld, Common.fact_with, Sights.view};

use crate::area::area_of;
use crate::crowd::{Crowd, Held};
use crate::inner::is_inner;
use crate::sight::Sight;
use crate::visions::Visions;
use sim_base::{Global, OutOfMemory};
use sim_fact_lists::place_of;
use sim_system::Fact;

/// Those who begin to see an entity or see it no more, those whom it begins to see or sees no more, and what it will see. It
/// keeps its room from note to note.
#[derive(Drop)]
pub struct Plan {
    pub watchers: Vec<u32>,
    pub seen: Vec<u32>,
    pub own: Sight,
}

impl Plan {
    /// Nothing changes. It takes no memory yet.
    pub fn new(alloc: Global) -> Plan {
        Plan {
            watchers: Vec::new(alloc),
            seen: Vec::new(alloc),
            own: Sight::new(alloc),
        }
    }

    // Adds those of these facts.
    fn push(
        &mut self,
        held: &Held<'_>,
        facts: &[Fact],
        before: &Option<Fact>,
        after: &Option<Fact>,
    ) -> Result<(), OutOfMemory>
        requires held { All (IsHeld held.now.land.now) facts.now }
        requires parts { AreHeldOn held.now.land.now before.now after.now }
        ensures watchers { OnOk result (self.new.watchers.items ≡ self.old.watchers.items ++ turned_watchers held.now.land.now before.now after.now facts.now) }
        ensures seen { OnOk result (self.new.seen.items ≡ self.old.seen.items ++ turned_seen held.now.land.now before.now after.now facts.now) }
    {
        for fact in facts {
            if held.is_seen(fact, before) != held.is_seen(fact, after) {
                self.watchers.push(fact.id)?;
            }
            if held.sees(before, fact) != held.sees(after, fact) {
                self.seen.push(fact.id)?;
            }
        }
        Ok(())
    }

    /// Finds them. A note may change what is seen from a bucket, or who is seen in it, only where the bucket is in the area and is not so near
    /// to both ends of a move that all see from it what they saw.
    pub fn find(
        &mut self,
        crowd: &Crowd<'_>,
        visions: &Visions,
        before: &Option<Fact>,
        after: &Option<Fact>,
    ) -> Result<(), OutOfMemory>
        requires near { All (SeesFrom visions.now.near) crowd.now.held.facts.now }
        requires far { All (SeesWithin visions.now.far) crowd.now.held.facts.now }
        requires parts { AreHeldOn crowd.now.held.land.now before.now after.now }
        requires ends { AreOnGround before.now after.now }
        requires before_near { IfSome before.now (SeesFrom visions.now.near) }
        requires before_far { IfSome before.now (SeesWithin visions.now.far) }
        requires after_far { IfSome after.now (SeesWithin visions.now.far) }
        ensures watchers { OnOk result (AreChanging crowd.now.held.land.now crowd.now.held.facts.now before.now after.now self.new.watchers.items) }
        ensures seen { OnOk result (AreInView crowd.now.held.land.now crowd.now.held.facts.now before.now after.now self.new.seen.items) }
    {
        self.watchers.clear();
        self.seen.clear();
        if !crowd.held.has_foes(before) && !crowd.held.has_foes(after) {
            return Ok(());
        }
        let area = area_of(before, after, visions.far);
        for number in area.rows.first * 16..area.rows.end * 16 {
            if area.columns.has(number % 16) && !is_inner(number, before, after, visions.near) {
                let facts = crowd.buckets[number].facts.as_slice();
                self.push(&crowd.held, facts, before, after)?;
            }
        }
        Ok(())
    }

    /// Finds what an entity will see, if it is kept, after the rest was found.
    pub fn find_own(
        &mut self,
        held: &Held<'_>,
        sights: &[Sight],
        after: &Option<Fact>,
    ) -> Result<(), OutOfMemory>
        requires sights { AreSights held.now.land.now held.now.facts.now sights.now }
        requires after { IfSome after.now (IsHeld held.now.land.now) }
        requires seen { IfSome after.now (λ fact. AreInView held.now.land.now held.now.facts.now (fact_with held.now.facts.now fact.id) (Some fact)
            self.old.seen.items) }
        ensures watchers { self.new.watchers.items ≡ self.old.watchers.items }
        ensures own { OnOk result (IfSome after.now (λ fact. self.new.own.ids.items ≡ sight held.now.land.now held.now.facts.now fact)) }
    {
        let Some(watcher) = after else {
            return Ok(());
        };
        self.own.ids.clear();
        if let Ok(at) = place_of(held.facts, watcher.id) {
            self.own.copy_from(&sights[at])?;
        }
        turn_own(&mut self.own, held, self.seen.as_slice(), watcher)
    }
}

// Changes what an entity saw before into what it sees as this watcher, where it begins to see these or sees them no more.
fn turn_own(
    own: &mut Sight,
    held: &Held<'_>,
    seen: &[u32],
    watcher: &Fact,
) -> Result<(), OutOfMemory>
    requires watcher { IsHeld held.now.land.now watcher.now }
    requires own { own.old.ids.items ≡ view held.now.land.now held.now.facts.now (fact_with held.now.facts.now watcher.now.id) }
    requires seen { AreInView held.now.land.now held.now.facts.now (fact_with held.now.facts.now watcher.now.id) (Some watcher.now) seen.now }
    ensures { OnOk result (own.new.ids.items ≡ sight held.now.land.now held.now.facts.now watcher.now) }
{
    for id in seen {
        if let Ok(at) = place_of(held.facts, *id) {
            own.make_room()?;
            own.turn(*id, held.is_seen_by(watcher, &held.facts[at]));
        }
    }
    Ok(())
}
