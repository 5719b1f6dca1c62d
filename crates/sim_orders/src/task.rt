//! The task of a planner, and how the usual planner does it: by a method for each kind of command. Whether there is anything to
//! change is asked before memory is taken.

ghost use Rattle.sim_base.specs.declared.{change.Change.TheVariants.Create, command.Command.TheVariants.{Attack, Delete, Place, Resign, Stop, Train, Walk}};
ghost use Rattle.sim_orders.specs.Orders.{Fulfils, IsGiven, kind_of, NeedsNoMemory, plan_for};
ghost use Rattle.std.specs.Prelude.{IfOk, IsOk, [], ◌∷◌, ◌≡◌};

use crate::checks::{has_room, is_enemy, trains};
use crate::help::Help;
use crate::named::Named;
use crate::ordered::{deleted, resigned, sent, set_on, stopped};
use sim_base::{
    Change, Changes, Command, Global, Ids, Items, OutOfMemory, Point, Setup, State, centre_of,
};
use sim_plans::{find_row, is_inside};

/// What a planner is asked: the changes of a player's command in a state of a match, with the help of the systems for it.
#[derive(Clone, Copy)]
pub struct Task<'a> {
    pub setup: &'a Setup,
    pub state: &'a State,
    pub help: &'a Help,
    pub player: u8,
    pub command: &'a Command,
}

impl Task<'_> {
    /// The changes of the command, whatever its kind is.
    pub fn plan(&self, alloc: Global) -> Result<Changes, OutOfMemory>
        requires { IsGiven (kind_of self.now.command.now) self.now }
        ensures obeys { Fulfils self.now result }
        ensures light { NeedsNoMemory self.now self.now.command.now → IsOk result }
    {
        match self.command {
            Command::Walk { ids, to } => self.walk(alloc, ids, to),
            Command::Stop { ids } => self.stop(alloc, ids),
            Command::Attack { ids, target } => self.attack(alloc, ids, *target),
            Command::Delete { ids } => self.delete(alloc, ids),
            Command::Place { template, at } => self.place(alloc, *template, *at),
            Command::Train { building, template } => self.train(alloc, *building, *template),
            Command::Resign => self.resign(alloc),
        }
    }

    // Each named row that can move goes to a point of the ground, forgets its target and holds its place no more.
    fn walk(&self, alloc: Global, ids: &Ids, to: &Point) -> Result<Changes, OutOfMemory>
        ensures value { IfOk result (λ changes. changes ≡ plan_for self.now (Walk ids.now to.now)) }
        ensures light { NeedsNoMemory self.now (Walk ids.now to.now) → IsOk result }
    {
        if !is_inside(&self.setup.land, to) {
            return Ok(Items::new(alloc));
        }
        let named = Named::of(ids)?;
        sent(alloc, self.state.rows.as_slice(), self.player, &named, to)
    }

    // Each named row is released, and holds its place if it can attack.
    fn stop(&self, alloc: Global, ids: &Ids) -> Result<Changes, OutOfMemory>
        ensures { IfOk result (λ changes. changes ≡ plan_for self.now (Stop ids.now)) }
    {
        let named = Named::of(ids)?;
        stopped(alloc, self.state.rows.as_slice(), self.player, &named)
    }

    // Each named row that can attack takes an enemy's row as target, stands still and holds its place no more.
    fn attack(&self, alloc: Global, ids: &Ids, target: u32) -> Result<Changes, OutOfMemory>
        requires { IsGiven 3 self.now }
        ensures value { IfOk result (λ changes. changes ≡ plan_for self.now (Attack ids.now target)) }
        ensures light { NeedsNoMemory self.now (Attack ids.now target) → IsOk result }
    {
        if !is_enemy(self.setup, self.state, self.player, target) {
            return Ok(Items::new(alloc));
        }
        let named = Named::of(ids)?;
        set_on(
            alloc,
            self.state.rows.as_slice(),
            self.player,
            &named,
            target,
        )
    }

    // Each named row leaves.
    fn delete(&self, alloc: Global, ids: &Ids) -> Result<Changes, OutOfMemory>
        ensures { IfOk result (λ changes. changes ≡ plan_for self.now (Delete ids.now)) }
    {
        let named = Named::of(ids)?;
        deleted(alloc, self.state.rows.as_slice(), self.player, &named)
    }

    // A new row stands at a point, where its rectangle is free and there is room.
    fn place(&self, alloc: Global, template: u16, at: Point) -> Result<Changes, OutOfMemory>
        requires given { IsGiven 5 self.now }
        requires command { self.now.command.now ≡ Place template at }
        ensures value { IfOk result (λ changes. changes ≡ plan_for self.now (Place template at)) }
        ensures light { NeedsNoMemory self.now (Place template at) → IsOk result }
    {
        if self.help.free && has_room(self.setup, self.state, self.help.count) {
            return created(alloc, template, at, self.player);
        }
        Ok(Items::new(alloc))
    }

    // A new row stands on the spot of a building of the player that trains it, where there is room.
    fn train(&self, alloc: Global, building: u32, template: u16) -> Result<Changes, OutOfMemory>
        requires given { IsGiven 6 self.now }
        requires command { self.now.command.now ≡ Train building template }
        ensures value { IfOk result (λ changes. changes ≡ plan_for self.now (Train building template)) }
        ensures light { NeedsNoMemory self.now (Train building template) → IsOk result }
    {
        let Some(row) = find_row(self.state, building) else {
            return Ok(Items::new(alloc));
        };
        if row.owner != self.player
            || !trains(self.setup, row, template)
            || !has_room(self.setup, self.state, self.help.count)
        {
            return Ok(Items::new(alloc));
        }
        match self.help.spot {
            Some(cell) => created(alloc, template, centre_of(cell), self.player),
            None => Ok(Items::new(alloc)),
        }
    }

    // Each row of the player becomes Gaia's.
    fn resign(&self, alloc: Global) -> Result<Changes, OutOfMemory>
        ensures value { IfOk result (λ changes. changes ≡ plan_for self.now Resign) }
        ensures light { NeedsNoMemory self.now Resign → IsOk result }
    {
        resigned(alloc, self.state.rows.as_slice(), self.player)
    }
}

// One new row.
fn created(alloc: Global, template: u16, at: Point, owner: u8) -> Result<Changes, OutOfMemory>
    ensures { IfOk result (λ changes. changes ≡ Create template at owner ∷ []) }
{
    let mut changes = Items::new(alloc);
    changes.push(Change::Create {
        template,
        at,
        owner,
    })?;
    Ok(changes)
}
