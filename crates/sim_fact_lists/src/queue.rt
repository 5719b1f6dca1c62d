//! A list of ids whose first leaves without moving the others: those who aim at an entity are let go one by one, in their
//! order, when it is gone.

ghost use Rattle.std.specs.Prelude.{◌≤◌, length};

use sim_base::{Global, OutOfMemory};

/// Ids in some order. Those that left at the front still stand there, until room is made and there are more of them than of
/// the others.
#[derive(Drop)]
pub struct Queue {
    pub ids: Vec<u32>,
    pub left: usize,
    ghost within: { left ≤ length ids.items },
}

impl Queue {
    ghost use Rattle.sim_fact_lists.specs.Queues.{HasPlace, MakesRoom, queued};
    ghost use Rattle.std.specs.{List.{insert as inserted, remove as removed}, Prelude.{IsTrue, length, [], ◌<◌, ◌≡◌, ◌≤◌}};

    /// It has no id, and takes no memory yet.
    pub fn new(alloc: Global) -> Queue
        ensures { queued result ≡ [] }
    {
        Queue {
            ids: Vec::new(alloc),
            left: 0,
        }
    }

    /// Lends the ids.
    pub fn as_slice(&self) -> &[u32]
        ensures { result.now ≡ queued self.now }
    {
        &self.ids.as_slice()[self.left..]
    }

    // Those that have left at the front go for good.
    fn close_up(&mut self)
        ensures ids { queued self.new ≡ queued self.old }
        ensures closed { self.new.left ≡ 0 }
    {
        let stay = self.ids.len() - self.left;
        self.ids.rotate_left(self.left);
        self.ids.truncate(stay);
        self.left = 0;
    }

    /// Makes room for one more. No more of those that left are kept then than there are others. Mostly it is there already, and
    /// that is looked at in the caller's place.
    #[inline(always)]
    pub fn make_room(&mut self) -> Result<(), OutOfMemory>
        ensures { MakesRoom result self.old self.new }
    {
        if self.has_room() {
            return Ok(());
        }
        self.renew()
    }

    // Whether there is room for one more, and no more of those that left are kept than there are others.
    fn has_room(&self) -> bool
        ensures few { IsTrue result → self.now.left ≤ length (queued self.now) }
        ensures room { IsTrue result → HasPlace self.now }
    {
        self.left <= self.ids.len() / 2 && self.ids.len() < self.ids.capacity()
    }

    // Makes room where there may be none. It is long, and so stands apart from what is looked at each time.
    #[inline(never)]
    fn renew(&mut self) -> Result<(), OutOfMemory>
        ensures { MakesRoom result self.old self.new }
    {
        if self.left > self.ids.len() / 2 {
            self.close_up();
        }
        self.ids.reserve(1)?;
        Ok(())
    }

    /// Takes out the id at a place.
    pub fn remove(&mut self, at: usize)
        requires { at < length (queued self.old) }
        ensures ids { queued self.new ≡ removed (queued self.old) at }
        ensures room { HasPlace self.old → HasPlace self.new }
    {
        if at == 0 {
            self.left += 1;
            return;
        }
        self.ids.remove(self.left + at);
    }

    /// Puts in an id at a place. The room was made before.
    pub fn insert(&mut self, at: usize, id: u32)
        requires at { at ≤ length (queued self.old) }
        requires room { HasPlace self.old }
        ensures { queued self.new ≡ inserted (queued self.old) at id }
    {
        let place = self.left + at;
        if place == self.ids.len() {
            let _ = self.ids.push(id);
            return;
        }
        let _ = self.ids.insert(place, id);
    }
}
