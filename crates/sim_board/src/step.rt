//! A change with its notes. The notes come first, while the state is as it was: they alone may want memory that is not
//! there, but for a new row.

ghost use Rattle.sim_board.specs.Boards.{MayTell, Steps};

use crate::board::Board;
use crate::change::{make, remove};
use crate::near::{place_near, row_in};
use sim_base::{Change, OutOfMemory};
use sim_system::System;

impl Board<'_> {
    /// Makes a change that fits, and tells the systems of it. The row of the change is looked for near the place of the last
    /// one, and its own place is kept for the next.
    pub(crate) fn step(&mut self, change: &mut Change) -> Result<(), OutOfMemory>
        requires { MayTell self.old change.old ⟦<dyn System as System>⟧ }
        ensures { Steps result change.old self.old self.new ⟦<dyn System as System>⟧ }
    {
        let near = match row_in(change) {
            Some(id) => place_near(self.state.rows.as_slice(), id, self.near),
            None => None,
        };
        self.near = near.unwrap_or(self.near);
        match change {
            Change::Remove { id } => {
                let watchers = self.removed(*id)?;
                let watchers = watchers.as_slice();
                remove(self.alloc, &mut self.state, *id, watchers, self.near);
                Ok(())
            }
            _ => {
                self.post(change)?;
                make(self.alloc, self.setup, &mut self.state, change, self.near)
            }
        }
    }
}
