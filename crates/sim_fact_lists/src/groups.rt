//! Ids in groups by a key. The ids of one key stand in a list of their own, ascending, so that they can be lent, and one that
//! comes or goes moves no id of another key. A key is found where the last one like it was or by halves; one that has lost its last id
//! keeps its list for the next. A system keeps such groups beside its facts.

ghost use Rattle.sim_fact_lists.specs.{Groups.{forgotten, GroupBelongs, GroupStands, HasRoom, KeysAscend, listed}, Ids.{with_id, without_id}};
ghost use Rattle.std.specs.Prelude.{if◌then◌else◌, IsTrue, MatchResult, OnOk, ℕ, [], ◌==◌, ◌≡◌};

use crate::group::Group;
use sim_base::{Global, OutOfMemory};
use std::cell::Cell;

/// Groups of ids, ascending by key. The places of the last even key and of the last odd one that were looked for are hints for the
/// next: where the rows of two players take turns, so do mostly those at whom they aim.
#[derive(Drop)]
pub struct Groups {
    pub groups: Vec<Group>,
    even: Cell<usize>,
    odd: Cell<usize>,
    ghost ascend: { KeysAscend groups.items },
}

impl Groups {
    /// No group has an id. It keeps the allocator, and takes no memory yet.
    pub fn new(alloc: Global) -> Groups
        ensures { result.groups.items ≡ [] }
    {
        Groups {
            groups: Vec::new(alloc),
            even: Cell::new(0),
            odd: Cell::new(0),
        }
    }

    // Near which place a key is looked for first.
    fn near(&self, key: u32) -> usize {
        if key % 2 == 0 {
            self.even.get()
        } else {
            self.odd.get()
        }
    }

    // Keeps where a key was found.
    fn set_near(&self, key: u32, at: usize) {
        if key % 2 == 0 {
            self.even.set(at);
        } else {
            self.odd.set(at);
        }
    }

    // Where the group of a key stands, or where it would be put.
    fn place_of(&self, key: u32) -> Result<usize, usize>
        ensures { MatchResult result (GroupStands self.now.groups.items key) (GroupBelongs self.now.groups.items key) }
    {
        let near = self.near(key);
        if self.stands_at(key, near) {
            return Ok(near);
        }
        let place = place_by_halves(self.groups.as_slice(), key);
        if let Ok(at) = place {
            self.set_near(key, at);
        }
        place
    }

    // Whether the group of a key stands at a place.
    fn stands_at(&self, key: u32, at: usize) -> bool
        ensures { IsTrue result → GroupStands self.now.groups.items key at }
    {
        match self.groups.as_slice().get(at) {
            Some(group) => group.key == key,
            None => false,
        }
    }

    /// The ids of a key.
    pub fn at(&self, key: u32) -> &[u32]
        ensures { result.now ≡ listed key self.now.groups.items }
    {
        match self.place_of(key) {
            Ok(at) => self.groups[at].ids.as_slice(),
            Err(_) => &[],
        }
    }

    /// Makes room for one more in the group of a key.
    pub fn make_room(&mut self, alloc: Global, key: u32) -> Result<(), OutOfMemory>
        ensures same { (k : ℕ) → listed k self.new.groups.items ≡ listed k self.old.groups.items }
        ensures room { OnOk result (HasRoom key self.new.groups.items) }
    {
        match self.place_of(key) {
            Ok(at) => self.groups[at].make_room(),
            Err(at) => {
                let mut group = Group::new(alloc, key);
                group.make_room()?;
                self.groups.insert(at, group)?;
                Ok(())
            }
        }
    }

    /// Takes an id out of the group of a key, if it is there.
    pub fn leave(&mut self, key: u32, id: u32)
        ensures left { (k : ℕ) → listed k self.new.groups.items ≡ (if key == k then without_id id (listed k self.old.groups.items)
            else listed k self.old.groups.items) }
        ensures room { (k : ℕ) → HasRoom k self.old.groups.items → HasRoom k self.new.groups.items }
    {
        if let Ok(at) = self.place_of(key) {
            self.groups[at].leave(id);
        }
    }

    /// Forgets a key that no id has any more. So keys that come and go for ever take no more memory than there are at once.
    pub fn forget(&mut self, key: u32)
        ensures groups { self.new.groups.items ≡ forgotten key self.old.groups.items }
        ensures lists { (k : ℕ) → listed k self.new.groups.items ≡ listed k self.old.groups.items }
    {
        if let Ok(at) = self.place_of(key) {
            if self.groups[at].ids.as_slice().is_empty() {
                self.groups.remove(at);
            }
        }
    }

    /// Puts an id into the group of a key, unless it is there. The room was made before.
    pub fn join(&mut self, key: u32, id: u32)
        requires { HasRoom key self.old.groups.items }
        ensures { (k : ℕ) → listed k self.new.groups.items ≡ (if key == k then with_id id (listed k self.old.groups.items)
            else listed k self.old.groups.items) }
    {
        if let Ok(at) = self.place_of(key) {
            self.groups[at].join(id);
        }
    }
}

// The same by halves.
fn place_by_halves(groups: &[Group], key: u32) -> Result<usize, usize>
    requires { KeysAscend groups.now }
    ensures { MatchResult result (GroupStands groups.now key) (GroupBelongs groups.now key) }
{
    groups.binary_search_by_key(&key, |group| group.key)
}
