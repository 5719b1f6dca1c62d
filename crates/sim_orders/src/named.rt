//! The ids that a command names, sorted once, so that each row is found among them at once or by halves.

ghost use Rattle.std.specs.{List.list_any, List.Sorted.IsPermutation, List.Sorted.IsNonDecreasing, Prelude.◌≡◌, Prelude.false, Prelude.IfOk, Prelude.◌==◌};
ghost use Rattle.sim_base.specs.Commands.{is_ordered};

use sim_base::{Ids, OutOfMemory, Row};

/// The ids that a command names, in ascending order.
#[derive(Drop)]
pub struct Named {
    ids: Ids,
    ghost ascending: { IsNonDecreasing ids },
}

impl Named {
    /// The same ids, sorted.
    pub fn of(ids: &Ids) -> Result<Named, OutOfMemory>
        ensures { IfOk result (λ named. IsPermutation ids.now named.ids) }
    {
        let mut sorted = ids.copy()?.into_items();
        sorted.sort_unstable();
        Ok(Named {
            ids: Ids::from_items(sorted),
        })
    }

    /// Whether the row is the player's and its id is among these. It is looked for at `next` before all others: a caller that goes
    /// through rows in the order of their ids counts there those that it found. Any number is right. It stands in its caller's
    /// place, since most rows are another player's.
    #[inline(always)]
    pub fn orders(&self, player: u8, row: &Row, next: usize) -> bool
        ensures { result ≡ is_ordered player self.now.ids row.now }
    {
        row.owner == player && self.has(row.id, next)
    }

    // Whether the id is among these.
    fn has(&self, id: u32, next: usize) -> bool
        ensures { result ≡ list_any (λ n. n == id) self.now.ids }
    {
        let ids = self.ids.as_slice();
        match ids.get(next) {
            Some(named) if *named == id => true,
            _ => self.spans(id) && ids.binary_search(&id).is_ok(),
        }
    }

    // Whether the id is neither below the first of these nor above the last.
    fn spans(&self, id: u32) -> bool
        ensures { result ≡ false → list_any (λ n. n == id) self.now.ids ≡ false }
    {
        let ids = self.ids.as_slice();
        match (ids.first(), ids.last()) {
            (Some(first), Some(last)) => *first <= id && id <= *last,
            _ => false,
        }
    }
}
