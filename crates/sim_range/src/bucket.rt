//! A bucket: the facts of those who stand in it, and beside them their ids, so that these can be lent.

ghost use Rattle.std.specs.Prelude.{◌≡◌, ◌<◌, [], map, IfSome, OnOk, IsSome, vec_len, vec_capacity};
ghost use Rattle.sim_range.specs.Common.{Ascend, id_of_fact, with_only};

use sim_base::{Global, OutOfMemory};
use sim_fact_lists::place_near;
use sim_system::Fact;

/// Those who stand in it, ascending by id. The place of the last that was put is a hint for the next.
#[derive(Drop)]
pub struct Bucket {
    pub facts: Vec<Fact>,
    pub ids: Vec<u32>,
    near: usize,
    ghost ascending: { Ascend facts.items },
    ghost named: { ids.items ≡ map id_of_fact facts.items },
}

impl Bucket {
    /// Nobody stands in it. It takes no memory yet.
    pub fn new(alloc: Global) -> Bucket
        ensures { result.facts.items ≡ [] }
    {
        Bucket {
            facts: Vec::new(alloc),
            ids: Vec::new(alloc),
            near: 0,
        }
    }

    /// Makes room for one more.
    pub fn make_room(&mut self) -> Result<(), OutOfMemory>
        ensures facts { self.new.facts.items ≡ self.old.facts.items }
        ensures facts_room { OnOk result (vec_len self.new.facts < vec_capacity self.new.facts) }
        ensures ids_room { OnOk result (vec_len self.new.ids < vec_capacity self.new.ids) }
    {
        self.facts.reserve(1)?;
        self.ids.reserve(1)?;
        Ok(())
    }

    /// Keeps this of an entity, and nothing else. Where it is something, the room was made before.
    pub fn put(&mut self, id: u32, part: &Option<Fact>)
        requires named { IfSome part.now (λ fact. fact.id ≡ id) }
        requires facts_room { IsSome part.now → vec_len self.old.facts < vec_capacity self.old.facts }
        requires ids_room { IsSome part.now → vec_len self.old.ids < vec_capacity self.old.ids }
        ensures { self.new.facts.items ≡ with_only id part.now self.old.facts.items }
    {
        match (place_near(self.facts.as_slice(), id, self.near), part) {
            (Ok(at), Some(fact)) => {
                self.facts[at] = *fact;
                self.near = at;
            }
            (Ok(at), None) => {
                self.facts.remove(at);
                self.ids.remove(at);
            }
            (Err(at), Some(fact)) => {
                let _ = self.facts.insert(at, *fact);
                let _ = self.ids.insert(at, id);
            }
            (Err(_), None) => {}
        }
    }
}
