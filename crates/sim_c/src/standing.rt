//! Where a client stands, as numbers.

ghost use Rattle.{sim_c.specs.Clients.standing_of, sim_held.specs.Clients.life};
ghost use Rattle.std.specs.Prelude.{◌≡◌};

use sim_held::HeldClient;

/// The stage, 0 off, 1 joining and 2 on; and the turns of one that is on: its own, those that are released, and those that it is done with.
#[repr(C)]
#[derive(Clone, Copy, Default)]
pub struct Standing {
    pub stage: u32,
    pub turn: u32,
    pub released: u32,
    pub done: u32,
}

impl Standing {
    /// Where this client stands.
    pub fn of(client: &HeldClient) -> Standing
        ensures { result ≡ standing_of (life client.now) }
    {
        Standing {
            stage: stage_of(client),
            turn: client.turn().unwrap_or(0),
            released: client.released().unwrap_or(0),
            done: client.done().unwrap_or(0),
        }
    }
}

fn stage_of(client: &HeldClient) -> u32
    ensures { result ≡ (standing_of (life client.now)).stage }
{
    if client.turn().is_some() {
        2
    } else {
        u32::from(client.joining())
    }
}
