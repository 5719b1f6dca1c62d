//! The table of the stored planners, and the help that it makes for them.

ghost use Rattle.{sim_base.specs.Limits.IsFrom, sim_orders.specs.Orders.{Fulfils, fulfils_prop, IsGiven, Obeys}, sim_plans.specs.SceneWords.Stands};
ghost use Rattle.std.specs.Prelude.{count_by, ℕ, ◌<◌, ◌==◌, ◌≡◌, ◌≤◌};

use crate::asks::help_of;
use crate::{Task, kind_of};
use sim_base::{Changes, Global, OutOfMemory, PlayerCommand};
use sim_plans::Scene;
use sim_system::System;

/// A planner as it is stored.
pub type Planner = Box<dyn Fn(Global, &Task<'_>) -> Result<Changes, OutOfMemory>>;

/// A planner for the commands of a kind. It may be called with each command of that kind in each state that is loosely
/// valid, and what it answers obeys the command.
#[derive(Drop)]
pub struct Handler {
    pub kind: u8,
    pub run: Planner,
    ghost may_run: { (alloc : _) (task : _) → IsGiven kind task.now → pre run alloc task },
    ghost obeys: { (alloc : _) (task : _) (result : _)
        → IsGiven kind task.now
        → post run alloc task result
        → Fulfils task.now result } by { λ x y i alloc task result given done.
            fulfils_prop given (x alloc task result given done) (y alloc task result given done) i },
}

impl Handler {
    // What it plans for a command of its kind.
    fn plan(&self, alloc: Global, task: &Task<'_>) -> Result<Changes, OutOfMemory>
        requires { IsGiven self.now.kind task.now }
        ensures { Fulfils task.now result }
    {
        (self.run)(alloc, task)
    }
}

/// A handler for each of the seven kinds.
#[derive(Drop)]
pub struct OrderTable {
    handlers: Vec<Handler>,
    ghost once: { (kind : ℕ) → 0 < kind → kind ≤ 7 → count_by (λ handler. handler.kind == kind) handlers.items ≡ 1 },
}

impl OrderTable {
    /// The table of these handlers, of which each kind from 1 to 7 stands once.
    pub fn new(handlers: Vec<Handler>) -> OrderTable
        requires { (kind : ℕ) → 0 < kind → kind ≤ 7 → count_by (λ handler. handler.kind == kind) handlers.items ≡ 1 }
        ensures { result.handlers ≡ handlers }
    {
        OrderTable { handlers }
    }

    /// What the handler of the order's kind plans for the state of a scene that stands.
    pub fn changes(
        &self,
        alloc: Global,
        scene: &Scene<'_>,
        order: &PlayerCommand,
    ) -> Result<Changes, OutOfMemory>
        requires stands { Stands scene.now ⟦<dyn System as System>⟧ }
        requires player { IsFrom 1 scene.now.setup.now.players order.now.player }
        ensures { Obeys scene.now.setup.now scene.now.state.now order.now.player order.now.command result }
    {
        let help = help_of(scene, order)?;
        let task = Task {
            setup: scene.setup,
            state: scene.state,
            help: &help,
            player: order.player,
            command: &order.command,
        };
        self.handler_of(kind_of(task.command)).plan(alloc, &task)
    }

    // The handler of a kind.
    fn handler_of(&self, kind: u8) -> &Handler
        requires from_one { 0 < kind }
        requires to_seven { kind ≤ 7 }
        ensures { result.now.kind ≡ kind }
    {
        let mut rest = self.handlers.as_slice();
        while let [handler, more @ ..] = rest {
            if handler.kind == kind {
                return handler;
            }
            rest = more;
        }
        unreachable!()
    }
}
