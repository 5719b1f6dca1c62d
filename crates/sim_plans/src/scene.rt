//! A moment of a match, which can be asked.

ghost use Rattle.{sim_plans.specs.SceneWords.Stands, sim_system.specs.Meanings.{answer_over, MayAsk, NeedsNoMemory}};
ghost use Rattle.std.specs.Prelude.{IfOk, IsOk, ◌≡◌};

use sim_base::{OutOfMemory, Setup, State};
use sim_system::{Answer, Ask, Kind, Rig, System, boxed};

/// A state of a match, and the systems that were told of it.
#[derive(Clone, Copy)]
pub struct Scene<'a> {
    pub setup: &'a Setup,
    pub state: &'a State,
    pub rig: &'a Rig,
}

impl Scene<'_> {
    /// The answer over the rows of the state, which the right system gives.
    pub fn ask(&self, ask: &Ask) -> Result<Answer, OutOfMemory>
        requires stands { Stands self.now ⟦<dyn System as System>⟧ }
        requires may { MayAsk self.now.setup.now self.now.state.now ask.now }
        ensures answer { IfOk result (λ given. given ≡ answer_over self.now.setup.now self.now.state.now ask.now) }
        ensures sure { NeedsNoMemory ask.now → IsOk result }
    {
        match ask.kind() {
            Kind::Ground => boxed::ask(&self.rig.ground, ask),
            Kind::Range => boxed::ask(&self.rig.range, ask),
            Kind::Watch => boxed::ask(&self.rig.watch, ask),
            Kind::Census => boxed::ask(&self.rig.census, ask),
        }
    }
}
