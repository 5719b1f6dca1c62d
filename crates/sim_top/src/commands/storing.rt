//! The state of a turn of a match, which is stored in a file.

ghost use Rattle.std.specs.Prelude.{IfErr, IfOk, Some, ◌<◌, ◌≡◌, ◌≤◌};
ghost use Rattle.sim_top.specs.{Commands.IsAnswerTo, Commands.shelved, Common.IsValid, Making.IsMadeOf, Making.status_made};
ghost use Rattle.sim_top.specs.{Outcome.stored_at as stored_outcome, Returning.RigsCameBack, Stops.AreEight, Words.to_store};

use super::{Answer, Equipment, Saved};
use crate::inputs::read_match;
use crate::rigs::{put_first, take_first};
use crate::{Status, Stop};
use sim_base::{Global, OutOfMemory, Setup, State};
use sim_codec::{digest, spell};
use sim_play::state_at;
use sim_report::push_saved;
use sim_store::Shelf;
use sim_system::{Rig, System};

impl Equipment<'_> {
    /// Stores the state of a turn of the match of a file.
    pub fn store<'w, S: Shelf>(
        &mut self,
        shelf: &mut S,
        game: &'w str,
        turn: u32,
        out: &'w str,
    ) -> Result<Answer<'w>, Stop<'w>>
        requires { AreEight ⟦<dyn System as System>⟧ self.old.rigs.items }
        ensures answer { IsAnswerTo (to_store game.now turn out.now) result (shelved (S.held shelf.old) (S.counts shelf.old))
            (shelved (S.held shelf.new) (S.counts shelf.new)) }
        ensures back { RigsCameBack ⟦<dyn System as System>⟧ (Some (to_store game.now turn out.now)) (S.held shelf.old) (status_made result) self.old.rigs
            self.new.rigs }
    {
        let setup = read_match(self.alloc, shelf, game)?;
        reached(&setup, turn)?;
        let rig = take_first(&mut self.rigs);
        let (state, rig) = state_at(self.alloc, &setup, turn, rig, self.orders);
        put_first(&mut self.rigs, rig);
        kept_state(self.alloc, &setup, state, out)
    }
}

/// Whether the match has this turn. One that it lacks takes no memory to refuse.
pub fn reached<'w>(setup: &Setup, turn: u32) -> Result<(), Stop<'w>>
    ensures within { IfOk result (λ done. turn ≤ setup.now.turns) }
    ensures past { IfErr result (λ stop. (setup.now.turns < turn) × (stop ≡ Stop.NoSuchTurn turn setup.now.turns)) }
{
    if setup.turns < turn {
        return Err(Stop::NoSuchTurn {
            asked: turn,
            turns: setup.turns,
        });
    }
    Ok(())
}

// The state of a turn as a file and its line, if there was memory for it.
fn kept_state<'w>(
    alloc: Global,
    setup: &Setup,
    state: Result<State, OutOfMemory>,
    out: &'w str,
) -> Result<Answer<'w>, Stop<'w>>
    requires { IfOk state (IsValid setup.now) }
    ensures { IsMadeOf state (λ state. stored_outcome setup.now state.turn out.now state) result }
{
    let state = state?;
    let bytes = spell(alloc, setup, &state)?;
    let mut text = String::new(alloc);
    push_saved(state.turn, bytes.len(), &digest(setup, &state), &mut text)?;
    Ok(Answer {
        status: Status::Done,
        text,
        saved: Some(Saved { name: out, bytes }),
    })
}
