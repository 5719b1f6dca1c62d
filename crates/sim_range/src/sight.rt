//! What an entity sees: the ids of others, which come and go one by one as these move, so that it is not drawn anew.

ghost use Rattle.std.specs.Prelude.{◌≡◌, ◌<◌, [], OnOk, IsTrue, vec_len, vec_capacity};
ghost use Rattle.sim_range.specs.{Common.IsStrictlyIncreasing, Sights.HasPlace, Sights.turned};

use sim_base::{Global, OutOfMemory};

/// The ids that an entity sees, ascending.
#[derive(Drop)]
pub struct Sight {
    pub ids: Vec<u32>,
}

impl Sight {
    /// It sees nobody. It takes no memory yet.
    pub fn new(alloc: Global) -> Sight
        ensures { result.ids.items ≡ [] }
    {
        Sight {
            ids: Vec::new(alloc),
        }
    }

    /// Sees what another one sees, and nothing else.
    pub fn copy_from(&mut self, other: &Sight) -> Result<(), OutOfMemory>
        ensures { OnOk result (self.new.ids.items ≡ other.now.ids.items) }
    {
        self.ids.clear();
        self.ids.extend_from_slice(other.ids.as_slice())?;
        Ok(())
    }

    /// Makes room for one more.
    pub fn make_room(&mut self) -> Result<(), OutOfMemory>
        ensures same { self.new.ids.items ≡ self.old.ids.items }
        ensures room { OnOk result (vec_len self.new.ids < vec_capacity self.new.ids) }
    {
        self.ids.reserve(1)?;
        Ok(())
    }

    /// Has this id, or does not have it. Where it comes, the room was made before.
    pub fn turn(&mut self, id: u32, seen: bool)
        requires ascending { IsStrictlyIncreasing self.old.ids.items }
        requires room { IsTrue seen → HasPlace id self.old }
        ensures { self.new.ids.items ≡ turned seen id self.old.ids.items }
    {
        match (self.ids.as_slice().binary_search(&id), seen) {
            (Ok(at), false) => {
                self.ids.remove(at);
            }
            (Err(at), true) => {
                let _ = self.ids.insert(at, id);
            }
            (Ok(_), true) => {}
            (Err(_), false) => {}
        }
    }
}
