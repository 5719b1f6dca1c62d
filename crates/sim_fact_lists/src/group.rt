//! The ids of one key.

ghost use Rattle.std.specs.{List.Sorted.IsStrictlyIncreasing, Prelude.◌≡◌, Prelude.[], Prelude.OnOk, Prelude.MatchResult};
ghost use Rattle.sim_fact_lists.specs.{Ids.IdBelongs, Ids.IdStands, Ids.with_id, Ids.without_id, Queues.HasPlace, Queues.queued};

use crate::queue::Queue;
use sim_base::{Global, OutOfMemory};

/// The ids of one key, ascending.
#[derive(Drop)]
pub struct Group {
    pub key: u32,
    pub ids: Queue,
    ghost ascend: { IsStrictlyIncreasing (queued ids) },
}

impl Group {
    /// It has no id, and takes no memory yet.
    pub fn new(alloc: Global, key: u32) -> Group
        ensures key { result.key ≡ key }
        ensures ids { queued result.ids ≡ [] }
    {
        Group {
            key,
            ids: Queue::new(alloc),
        }
    }

    /// Makes room for one more.
    #[inline(always)]
    pub fn make_room(&mut self) -> Result<(), OutOfMemory>
        ensures key { self.new.key ≡ self.old.key }
        ensures ids { queued self.new.ids ≡ queued self.old.ids }
        ensures room { OnOk result (HasPlace self.new.ids) }
    {
        self.ids.make_room()
    }

    /// Takes an id out, if it is there.
    pub fn leave(&mut self, id: u32)
        ensures key { self.new.key ≡ self.old.key }
        ensures ids { queued self.new.ids ≡ without_id id (queued self.old.ids) }
        ensures room { HasPlace self.old.ids → HasPlace self.new.ids }
    {
        if let Ok(at) = place_of(self.ids.as_slice(), id) {
            self.ids.remove(at);
        }
    }

    /// Puts an id in, unless it is there. The room was made before.
    pub fn join(&mut self, id: u32)
        requires { HasPlace self.old.ids }
        ensures key { self.new.key ≡ self.old.key }
        ensures ids { queued self.new.ids ≡ with_id id (queued self.old.ids) }
    {
        if let Err(at) = place_of(self.ids.as_slice(), id) {
            self.ids.insert(at, id);
        }
    }
}

// Where an id stands among ids, or where it would be put. Both ends are looked at first, since ids come and go in their order.
fn place_of(ids: &[u32], id: u32) -> Result<usize, usize>
    requires { IsStrictlyIncreasing ids.now }
    ensures { MatchResult result (IdStands ids.now id) (IdBelongs ids.now id) }
{
    match ids {
        [first, ..] if *first == id => Ok(0),
        [.., last] if *last < id => Err(ids.len()),
        _ => ids.binary_search(&id),
    }
}
