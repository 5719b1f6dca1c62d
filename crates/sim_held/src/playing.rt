//! A client that plays, apart from what is held: what is held stands as cut off until it is put back.

ghost use Rattle.std.specs.Prelude.{◌≡◌};
ghost use Rattle.sim_held.specs.{Clients.TakesOut, Clients.life_at, Clients.may_run, declared.stage.Stage.TheVariants.On as at_turn};

use crate::outbox::Outbox;
use crate::stage::Stage;
use sim_base::{Global, Setup, State};
use sim_client::Seat;

/// The state of a client that is on, what it keeps beside, and what waits to be sent.
#[derive(Drop)]
pub struct Playing {
    pub state: State,
    pub seat: Seat,
    pub outbox: Outbox,
}

// Whether a client is on, and its next turn is one of the match and known to be released.
fn may_play(setup: &Setup, stage: &Stage) -> bool
    ensures { result ≡ may_run setup.now (life_at stage.now) }
{
    match stage {
        Stage::Off => false,
        Stage::Joining => false,
        Stage::On { state, seat } => state.turn < setup.turns && state.turn < seat.released,
    }
}

impl Playing {
    /// Takes a client out that may play a turn. What stays is off, with nothing to be sent.
    pub fn take_out(
        alloc: Global,
        setup: &Setup,
        stage: &mut Stage,
        outbox: &mut Outbox,
    ) -> Option<Playing>
        ensures { TakesOut (may_run setup.now (life_at stage.old)) stage.old outbox.old result stage.new outbox.new }
    {
        if !may_play(setup, stage) {
            return None;
        }
        let Stage::On { state, seat } = std::mem::replace(stage, Stage::Off) else {
            return None;
        };
        let outbox = std::mem::replace(outbox, Outbox::new(alloc));
        Some(Playing {
            state,
            seat,
            outbox,
        })
    }

    /// Puts it back.
    pub fn put_back(self, stage: &mut Stage, outbox: &mut Outbox)
        ensures stage { stage.new ≡ at_turn self.state self.seat }
        ensures outbox { outbox.new ≡ self.outbox }
    {
        let Playing {
            state,
            seat,
            outbox: waits,
        } = self;
        *stage = Stage::On { state, seat };
        *outbox = waits;
    }
}
