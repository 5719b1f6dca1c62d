//! A ground that was drawn and is not used now. To draw one goes over each of its cells several times, so it is kept until the next is
//! asked for, and serves as that where land and obstructions are the same: as where a match is played on in another call, or where a
//! client loads a state. It says itself of which land and obstructions it is.

ghost use Rattle.std.specs.Prelude.{◌≡◌, true, IfOk};
ghost use Rattle.sim_ground.specs.{Covering.MayDraw, Opening.IsOpened};

use crate::opened::Opened;
use crate::rooms::Rooms;
use crate::same::{are_same_facts, is_same_land};
use sim_base::{Global, Land, OutOfMemory};
use sim_system::Fact;

/// A land, its obstructions by id, and what was drawn of them. It is plain data.
#[derive(Drop)]
pub struct Drawn {
    land: Land,
    facts: Vec<Fact>,
    opened: Opened,
    ghost right: { IsOpened land facts.items opened },
}

impl Drawn {
    /// That of a land with these obstructions.
    pub fn new(land: Land, facts: Vec<Fact>, opened: Opened) -> Drawn
        requires { IsOpened land facts.items opened }
    {
        Drawn {
            land,
            facts,
            opened,
        }
    }

    // Whether it is that of a land with these obstructions.
    fn is_of(&self, land: &Land, facts: &[Fact]) -> bool
        ensures { result ≡ true → IsOpened land.now facts.now self.now.opened }
    {
        is_same_land(&self.land, land) && are_same_facts(self.facts.as_slice(), facts)
    }
}

/// The layers, the open cells and the labels of a land with these obstructions: the kept ones, if they are of these, or new ones. Others
/// that were kept are let go.
pub fn draw(
    alloc: Global,
    rooms: &Rooms,
    land: &Land,
    facts: &[Fact],
) -> Result<Opened, OutOfMemory>
    requires { MayDraw land.now facts.now }
    ensures { IfOk result (IsOpened land.now facts.now) }
{
    if let Some(drawn) = rooms.take_drawn() {
        if drawn.is_of(land, facts) {
            let Drawn { opened, .. } = drawn;
            return Ok(opened);
        }
    }
    Opened::of(alloc, land, facts)
}
