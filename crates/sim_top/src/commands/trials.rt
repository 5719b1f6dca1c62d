//! The match of a trial, which is made of three numbers and read from no file.

ghost use Rattle.std.specs.Prelude.{IfOk, IsErr, List, OnErr, Option, Some, string_bytes, ◌≡◌};
ghost use Rattle.sim_top.specs.{Commands.IsAnswerTo, Commands.Shelved, Common.File, Common.IsTrial, Common.IsValid, Common.trial_line, Making.status_made};
ghost use Rattle.sim_top.specs.{Returning.RigsCameBack, Stops.AreEight, Words.to_try};

use super::{Answer, Equipment, shown};
use crate::inputs::trial_match;
use crate::rigs::{put_first, take_first};
use crate::stop::Stop;
use sim_base::{Global, OutOfMemory, Setup, State};
use sim_play::{push_trial, state_at};
use sim_system::{Rig, System};

impl Equipment<'_> {
    /// Plays the match of a trial, which has a seed, so many soldiers and so many turns.
    pub fn trial<'w>(&mut self, numbers: (u32, u32, u32)) -> Result<Answer<'w>, Stop<'w>>
        requires limits { IsTrial numbers.0 numbers.1 numbers.2 }
        requires eight { AreEight ⟦<dyn System as System>⟧ self.old.rigs.items }
        ensures answer { (shelf : Shelved) → IsAnswerTo (to_try numbers.0 numbers.1 numbers.2) result shelf shelf }
        ensures back { (held : Option (List File)) → RigsCameBack ⟦<dyn System as System>⟧ (Some (to_try numbers.0 numbers.1 numbers.2)) held
            (status_made result)
            self.old.rigs self.new.rigs }
    {
        let (seed, units, turns) = numbers;
        let setup = trial_match(self.alloc, seed, units, turns)?;
        let rig = take_first(&mut self.rigs);
        let (state, rig) = state_at(self.alloc, &setup, setup.turns, rig, self.orders);
        put_first(&mut self.rigs, rig);
        shown(trial_text(self.alloc, numbers, &setup, state))
    }
}

// The line of a trial, if there was memory for its last state.
fn trial_text(
    alloc: Global,
    numbers: (u32, u32, u32),
    setup: &Setup,
    state: Result<State, OutOfMemory>,
) -> Result<String, OutOfMemory>
    requires { IfOk state (IsValid setup.now) }
    ensures text { IfOk result (λ text. IfOk state (λ state. string_bytes text ≡ trial_line numbers.0 numbers.1 numbers.2 setup.now state)) }
    ensures refused { OnErr state (IsErr result) }
{
    let state = state?;
    let mut text = String::new(alloc);
    push_trial(numbers, setup, &state, &mut text)?;
    Ok(text)
}
