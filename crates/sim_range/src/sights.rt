//! What entities see: a list beside the facts, one by one. When an entity changes, the lists of those change for whom it
//! changes whether they see it.

ghost use Rattle.std.specs.Prelude.{◌≡◌, ℕ, ◌<◌, map, length, IfSome, IfOk, OnOk, IsSome, IsTrue, slice_index_or, vec_len, vec_capacity};
ghost use Rattle.sim_range.specs.Common.{fact_with, IsHeld, IsStrictlyIncreasing, with_only};
ghost use Rattle.sim_range.specs.Sights.{AreChanging, AreSights, HasPlace, HaveRooms, ids_at, ids_of, sight as sight_among, StayElsewhere, turned};

use crate::crowd::{Crowd, Held};
use crate::sight::Sight;
use sim_base::{Global, OutOfMemory};
use sim_fact_lists::place_of;
use sim_system::Fact;

/// What each of these facts sees.
pub fn sights_of(alloc: Global, crowd: &Crowd<'_>) -> Result<Vec<Sight>, OutOfMemory>
    ensures { IfOk result (λ all. AreSights crowd.now.held.land.now crowd.now.held.facts.now all.items) }
{
    let mut all = Vec::new(alloc);
    for fact in crowd.held.facts {
        all.push(crowd.sight_of(alloc, fact)?)?;
    }
    Ok(all)
}

// Makes room for one more in a sight.
fn make_room_at(sights: &mut Vec<Sight>, at: usize) -> Result<(), OutOfMemory>
    requires within { at < length sights.old.items }
    ensures elsewhere { StayElsewhere at sights.old.items sights.new.items }
    ensures same { (k : ℕ) (d : Sight) → ids_at sights.new.items k d ≡ ids_at sights.old.items k d }
    ensures there { OnOk result ((d : Sight) → vec_len (slice_index_or sights.new.items at d).ids < vec_capacity (slice_index_or sights.new.items at d).ids) }
{
    sights[at].make_room()
}

/// Makes room for one more in the sights of these watchers.
pub fn make_rooms(
    sights: &mut Vec<Sight>,
    held: &Held<'_>,
    watchers: &[u32],
) -> Result<(), OutOfMemory>
    requires along { length sights.old.items ≡ length held.now.facts.now }
    ensures along { length sights.new.items ≡ length sights.old.items }
    ensures same { (k : ℕ) (d : Sight) → ids_at sights.new.items k d ≡ ids_at sights.old.items k d }
    ensures room { OnOk result (HaveRooms held.now.facts.now watchers.now sights.new.items) }
{
    for watcher in watchers {
        if let Ok(at) = place_of(held.facts, *watcher) {
            make_room_at(sights, at)?;
        }
    }
    Ok(())
}

// An id comes to a sight, or goes. Where it comes, the room was made before.
fn turn_at(sights: &mut Vec<Sight>, at: usize, id: u32, seen: bool)
    requires within { at < length sights.old.items }
    requires ascending { (d : Sight) → IsStrictlyIncreasing (ids_at sights.old.items at d) }
    requires room { (d : Sight) → IsTrue seen → HasPlace id (slice_index_or sights.old.items at d) }
    ensures elsewhere { StayElsewhere at sights.old.items sights.new.items }
    ensures there { (d : Sight) → ids_at sights.new.items at d ≡ turned seen id (ids_at sights.old.items at d) }
    ensures room { vec_len sights.old < vec_capacity sights.old → vec_len sights.new < vec_capacity sights.new }
{
    sights[at].turn(id, seen);
}

/// Changes what these watchers see as what is kept of an entity has changed. The room was made before.
pub fn turn_all(
    sights: &mut Vec<Sight>,
    held: &Held<'_>,
    watchers: &[u32],
    id: u32,
    after: &Option<Fact>,
)
    requires after { IfSome after.now (IsHeld held.now.land.now) }
    requires named { IfSome after.now (λ fact. fact.id ≡ id) }
    requires sights { AreSights held.now.land.now held.now.facts.now sights.old.items }
    requires room { HaveRooms held.now.facts.now watchers.now sights.old.items }
    ensures along { length sights.new.items ≡ length sights.old.items }
    ensures changed { AreChanging held.now.land.now held.now.facts.now (fact_with held.now.facts.now id) after.now watchers.now → map ids_of sights.new.items ≡
        map (sight_among held.now.land.now (with_only id after.now held.now.facts.now)) held.now.facts.now }
    ensures room { vec_len sights.old < vec_capacity sights.old → vec_len sights.new < vec_capacity sights.new }
{
    for watcher in watchers {
        if let Ok(at) = place_of(held.facts, *watcher) {
            turn_at(sights, at, id, held.is_seen(&held.facts[at], after));
        }
    }
}

/// Keeps what an entity sees, where it is kept, and nothing else of it. Where it is new, the room was made before. What it saw
/// before is left in its place.
pub fn put(sights: &mut Vec<Sight>, held: &Held<'_>, id: u32, part: &Option<Fact>, own: &mut Sight)
    requires named { IfSome part.now (λ fact. fact.id ≡ id) }
    requires own { IfSome part.now (λ fact. own.old.ids.items ≡ sight_among held.now.land.now (with_only id part.now held.now.facts.now) fact) }
    requires sights { map ids_of sights.old.items ≡ map (sight_among held.now.land.now (with_only id part.now held.now.facts.now)) held.now.facts.now }
    requires room { IsSome part.now → vec_len sights.old < vec_capacity sights.old }
    ensures { AreSights held.now.land.now (with_only id part.now held.now.facts.now) sights.new.items }
{
    match (place_of(held.facts, id), part) {
        (Ok(at), Some(_)) => std::mem::swap(&mut sights[at], own),
        (Ok(at), None) => {
            sights.remove(at);
        }
        (Err(at), Some(_)) => {
            let fresh = Sight::new(*own.ids.allocator());
            let _ = sights.insert(at, std::mem::replace(own, fresh));
        }
        (Err(_), None) => {}
    }
}
