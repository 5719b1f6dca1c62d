//! The notes of each change, to the systems that keep it. The state is still as it was before. The row of a change stands near
//! the place that the board keeps for it.

ghost use Rattle.sim_base.specs.declared.change.Change.TheVariants as change;
ghost use Rattle.std.specs.Prelude.{IfOk, IsOk, OnOk, ◌≡◌};
ghost use Rattle.sim_board.specs.Boards.{AreKept, IsNoRemoval, KeepsTarget, MayTell, NeedsNoMemory, state_in, Tells};
ghost use Rattle.{sim_base.specs.Commands.watchers as watchers_of, sim_plans.specs.Releases.AreWatching, sim_plans.specs.Releases.release_all};
ghost use Rattle.{sim_plans.specs.SceneWords.IsStanding, sim_system.specs.Meanings.AreFed, sim_system.specs.RigWords.systems_of};

use crate::board::Board;
use crate::row::{Birth, born, fact_of, living};
use crate::tell::tell_all;
use sim_base::{Aim, Change, Ids, OutOfMemory, Point, Setup, State};
use sim_plans::{Scene, target_of};
use sim_system::{Answer, Ask, Note, Rig, System, boxed};

impl Board<'_> {
    // A row moves: Range is told.
    fn moved(&mut self, id: u32, at: &Point) -> Result<(), OutOfMemory>
        requires { MayTell self.old (change.Move id at.now) ⟦<dyn System as System>⟧ }
        ensures { Tells result (change.Move id at.now) self.old self.new ⟦<dyn System as System>⟧ }
    {
        let row = living(&self.state, id, self.near);
        let from = row.at;
        boxed::tell(&mut self.rig.range, &Note::Moved { id, from, to: *at })?;
        Ok(())
    }

    // A row takes a target: Watch is told, unless it is the target that the row had.
    fn aimed(&mut self, id: u32, aim: Aim) -> Result<(), OutOfMemory>
        requires { MayTell self.old (change.Attack id aim) ⟦<dyn System as System>⟧ }
        ensures tells { Tells result (change.Attack id aim) self.old self.new ⟦<dyn System as System>⟧ }
        ensures untold { KeepsTarget (state_in self.old) (change.Attack id aim) → IsOk result }
    {
        let row = living(&self.state, id, self.near);
        let from = target_of(row);
        if from == aim.target {
            return Ok(());
        }
        let note = Note::Aimed {
            id,
            from,
            to: aim.target,
        };
        boxed::tell(&mut self.rig.watch, &note)?;
        Ok(())
    }

    // A row has another owner: Range and Census are told.
    fn owned(&mut self, id: u32, owner: u8) -> Result<(), OutOfMemory>
        requires { MayTell self.old (change.Owner id owner) ⟦<dyn System as System>⟧ }
        ensures { Tells result (change.Owner id owner) self.old self.new ⟦<dyn System as System>⟧ }
    {
        let row = living(&self.state, id, self.near);
        let note = Note::Owned {
            id,
            from: row.owner,
            to: owner,
        };
        boxed::tell(&mut self.rig.range, &note)?;
        boxed::tell(&mut self.rig.census, &note)?;
        Ok(())
    }

    // A row is made: all are told.
    fn created(&mut self, birth: &Birth) -> Result<(), OutOfMemory>
        requires { MayTell self.old (change.Create birth.now.number birth.now.at birth.now.owner) ⟦<dyn System as System>⟧ }
        ensures { Tells result (change.Create birth.now.number birth.now.at birth.now.owner) self.old self.new ⟦<dyn System as System>⟧ }
    {
        let fact = born(self.setup, self.state.next, birth);
        tell_all(&mut self.rig, &Note::Born { fact })?;
        Ok(())
    }

    /// A row leaves: Watch is told that those who aimed at it are let go, and then all are told that it is gone. The answer is
    /// who was let go.
    pub(crate) fn removed(&mut self, id: u32) -> Result<Ids, OutOfMemory>
        requires { MayTell self.old (change.Remove id) ⟦<dyn System as System>⟧ }
        ensures tells { Tells result (change.Remove id) self.old self.new ⟦<dyn System as System>⟧ }
        ensures watchers { IfOk result (λ ids. ids ≡ watchers_of (state_in self.old) id) }
    {
        let fact = fact_of(self.setup, living(&self.state, id, self.near));
        let ids = watchers(self.setup, &self.state, &self.rig, id)?;
        release(self.setup, &self.state, &mut self.rig, id, ids.as_slice())?;
        tell_all(&mut self.rig, &Note::Gone { fact })?;
        Ok(ids)
    }

    /// Posts the notes of a change by which no row leaves.
    pub(crate) fn post(&mut self, change: &Change) -> Result<(), OutOfMemory>
        requires may { MayTell self.old change.now ⟦<dyn System as System>⟧ }
        requires stays { IsNoRemoval change.now }
        ensures tells { Tells result change.now self.old self.new ⟦<dyn System as System>⟧ }
        ensures sure { NeedsNoMemory change.now → IsOk result }
        ensures untold { KeepsTarget (state_in self.old) change.now → IsOk result }
    {
        match change {
            Change::Move { id, at } => self.moved(*id, at),
            Change::Attack { id, aim } => self.aimed(*id, *aim),
            Change::Owner { id, owner } => self.owned(*id, *owner),
            Change::Create {
                template,
                at,
                owner,
            } => self.created(&Birth {
                number: *template,
                at: *at,
                owner: *owner,
            }),
            Change::Motion { .. } => Ok(()),
            Change::Health { .. } => Ok(()),
            Change::Word { .. } => Ok(()),
            Change::Tick => Ok(()),
            Change::Remove { .. } => unreachable!(),
        }
    }
}

// Those who aim at a row.
fn watchers(setup: &Setup, state: &State, rig: &Rig, id: u32) -> Result<Ids, OutOfMemory>
    requires { IsStanding setup.now state.now (systems_of rig.now ⟦<dyn System as System>⟧) }
    ensures { IfOk result (λ ids. ids ≡ watchers_of state.now id) }
{
    let scene = Scene { setup, state, rig };
    match scene.ask(&Ask::Watchers { id })? {
        Answer::Many { ids } => Ok(ids),
        _ => unreachable!(),
    }
}

// Watch is told that these, who aim at a row, are let go.
fn release(
    setup: &Setup,
    state: &State,
    rig: &mut Rig,
    id: u32,
    ids: &[u32],
) -> Result<(), OutOfMemory>
    requires stands { IsStanding setup.now state.now (systems_of rig.old ⟦<dyn System as System>⟧) }
    requires watching { AreWatching state.now id ids.now }
    ensures fed { OnOk result (AreFed setup.now (release_all ids.now state.now) (systems_of rig.new ⟦<dyn System as System>⟧)) }
    ensures kept { AreKept (systems_of rig.old ⟦<dyn System as System>⟧) (systems_of rig.new ⟦<dyn System as System>⟧) }
{
    for watcher in ids {
        let note = Note::Aimed {
            id: *watcher,
            from: id,
            to: 0,
        };
        boxed::tell(&mut rig.watch, &note)?;
    }
    Ok(())
}
