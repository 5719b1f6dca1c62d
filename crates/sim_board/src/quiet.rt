//! Aims by which rows keep their targets: a fighter waits, or has hit. No system is told of them, and a phase has one for each
//! fighter, so the rows are taken out of the state once for all of them.

ghost use Rattle.{sim_base.specs.Rows.id_of, sim_board.specs.Boards.{AreAroundKept, IsWhole, LeadsOn, rig_in, setup_in, state_in}};
ghost use Rattle.sim_plans.specs.RowChanges.{AllFit};
ghost use Rattle.std.specs.{List.Sorted.IsStrictlyIncreasing, Prelude.{drop, IfNone, IfSome, length, map, ◌≡◌, ◌≤◌}};

use crate::board::Board;
use crate::change::take_rows;
use crate::near::place_near;
use sim_base::{Change, Items, Row};
use sim_plans::target_of;
use sim_system::System;

// Sets an aim by which its row keeps its target. Answers where the row stands; where the change is another one, nothing is set.
fn keep_aim(rows: &mut Vec<Row>, change: &Change, near: usize) -> Option<usize>
    requires { IsStrictlyIncreasing (map id_of rows.old.items) }
    ensures made { IfSome result (λ place. AreAroundKept rows.old.items rows.new.items change.now) }
    ensures other { IfNone result (rows.new.items ≡ rows.old.items) }
{
    let Change::Attack { id, aim } = change else {
        return None;
    };
    let Some(place) = place_near(rows.as_slice(), *id, near) else {
        return None;
    };
    let target = target_of(&rows[place]);
    if target == aim.target {
        rows[place].attack = Some(*aim);
        return Some(place);
    }
    None
}

impl Board<'_> {
    /// Makes the first of these changes, as many as are such aims. Answers how many these are.
    pub(crate) fn keep_aims(&mut self, changes: &[Change]) -> usize
        requires whole { IsWhole self.old ⟦<dyn System as System>⟧ }
        requires fit { AllFit (setup_in self.old) (state_in self.old) changes.now }
        ensures within { result ≤ length changes.now }
        ensures leads { LeadsOn (setup_in self.old) (state_in self.old) (state_in self.new) changes.now (drop result changes.now) }
        ensures whole { IsWhole self.new ⟦<dyn System as System>⟧ }
        ensures rig { rig_in self.new ≡ rig_in self.old }
        ensures setup { setup_in self.new ≡ setup_in self.old }
    {
        let mut rows = take_rows(self.alloc, &mut self.state);
        let mut near = self.near;
        let mut kept = 0;
        for change in changes {
            let Some(place) = keep_aim(&mut rows, change, near) else {
                break;
            };
            near = place;
            kept += 1;
        }
        self.near = near;
        self.state.rows = Items::from_items(rows);
        kept
    }
}
