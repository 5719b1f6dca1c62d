//! The commands that a client knows of the turns to come. A turn is found by halves, and what was played is kept no more.

ghost use Rattle.std.specs.Prelude.{[], OnOk, ◌++◌, ◌∷◌, ◌≡◌};
ghost use Rattle.{sim_client.specs.StageWords.known_in, sim_plain.specs.Server.put};

use sim_base::{Global, Items, OutOfMemory, PlayerCommand};
use std::collections::BTreeMap;

/// The commands of a turn, in the order in which they were heard.
pub type Orders = Items<PlayerCommand>;

/// Commands by turn. A turn may be any number of 32 bits.
#[derive(Drop)]
pub struct Known {
    alloc: Global,
    by_turn: BTreeMap<u32, Orders>,
}

impl Known {
    /// No command is known.
    pub fn new(alloc: Global) -> Known
        ensures { known_in result ≡ (λ t. []) }
    {
        Known {
            alloc,
            by_turn: BTreeMap::new(alloc),
        }
    }

    /// Takes the commands of a turn, which are known no more.
    pub fn take(&mut self, turn: u32) -> Orders
        ensures orders { result ≡ known_in self.old turn }
        ensures others { known_in self.new ≡ put turn [] (known_in self.old) }
    {
        match self.by_turn.remove(&turn) {
            Some(orders) => orders,
            None => Items::new(self.alloc),
        }
    }

    /// One command more of a turn is known.
    pub fn learn(&mut self, turn: u32, order: PlayerCommand) -> Result<(), OutOfMemory>
        ensures { OnOk result (known_in self.new ≡ put turn (known_in self.old turn ++ order ∷ []) (known_in self.old)) }
    {
        let mut orders = self.take(turn);
        orders.push(order)?;
        self.set(turn, orders)
    }

    // These are the commands of a turn from now on.
    fn set(&mut self, turn: u32, orders: Orders) -> Result<(), OutOfMemory>
        ensures { OnOk result (known_in self.new ≡ put turn orders (known_in self.old)) }
    {
        self.by_turn.insert(turn, orders)?;
        Ok(())
    }
}
