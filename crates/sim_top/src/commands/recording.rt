//! A session that is recorded: the log of its released turns is stored in a file.

ghost use Rattle.std.specs.Prelude.{All, codes, drop, length, Some, vec_capacity, ◌≡◌, ◌≤◌};
ghost use Rattle.sim_top.specs.{Commands.IsAnswerTo, Commands.shelved, Common.IsSetup, Common.log_after as log_of_turns, Common.state_after, Making.IsMade};
ghost use Rattle.sim_top.specs.{Making.status_made, Outcome.logged_as, Returning.RigsCameBack, Stops.AreEight, Stops.AreFresh, Stops.HasPlayed, Stops.OfFirsts};
ghost use Rattle.{sim_laws.specs.TurnLaws.IsOrderOf, sim_top.specs.Words.to_record};

use super::logs::stored_log;
use super::{Answer, Equipment};
use crate::inputs::{read_session_match, read_steps};
use crate::rigs::{put_first, take_first};
use crate::stop::Stop;
use sim_base::Setup;
use sim_play::log_after;
use sim_replay::Turns;
use sim_session::released_turns;
use sim_store::Shelf;
use sim_system::{Rig, System};
use std::mem;

impl Equipment<'_> {
    /// Runs a session of the match of a file over the steps of another, and stores the log of its released turns.
    pub fn record<'w, S: Shelf>(
        &mut self,
        shelf: &mut S,
        game: &'w str,
        steps: &'w str,
        out: &'w str,
    ) -> Result<Answer<'w>, Stop<'w>>
        requires { AreFresh ⟦<dyn System as System>⟧ self.old.rigs.items }
        ensures answer { IsAnswerTo (to_record game.now steps.now out.now) result (shelved (S.held shelf.old) (S.counts shelf.old))
            (shelved (S.held shelf.new) (S.counts shelf.new)) }
        ensures back { RigsCameBack ⟦<dyn System as System>⟧ (Some (to_record game.now steps.now out.now)) (S.held shelf.old) (status_made result) self.old.rigs
            self.new.rigs }
    {
        let setup = read_session_match(self.alloc, shelf, game)?;
        let list = read_steps(self.alloc, shelf, steps, setup.players)?;
        let all = mem::replace(&mut self.rigs, Vec::new(self.alloc));
        let (turns, back) = released_turns(self.alloc, &setup, self.orders, &list, all);
        self.rigs = back;
        self.record_turns(&setup, turns?, out)
    }

    // The log of the released turns of a session, which the first rig plays.
    fn record_turns<'w>(
        &mut self,
        setup: &Setup,
        turns: Turns,
        out: &'w str,
    ) -> Result<Answer<'w>, Stop<'w>>
        requires limits { IsSetup setup.now }
        requires few { length turns ≤ setup.now.turns }
        requires players { All (All (IsOrderOf setup.now)) turns }
        requires eight { AreEight ⟦<dyn System as System>⟧ self.old.rigs.items }
        ensures made { IsMade (logged_as (codes "record") setup.now out.now (log_of_turns setup.now turns)) result }
        ensures played { OfFirsts self.old.rigs.items self.new.rigs.items (HasPlayed ⟦<dyn System as System>⟧ setup.now (state_after setup.now turns) result) }
        ensures others { drop 1 self.new.rigs.items ≡ drop 1 self.old.rigs.items }
        ensures eight { AreEight ⟦<dyn System as System>⟧ self.new.rigs.items }
        ensures room { vec_capacity self.new.rigs ≡ vec_capacity self.old.rigs }
    {
        let rig = take_first(&mut self.rigs);
        let (log, rig) = log_after(self.alloc, setup, turns, rig, self.orders);
        put_first(&mut self.rigs, rig);
        stored_log(self.alloc, "record", setup, log, out)
    }
}
