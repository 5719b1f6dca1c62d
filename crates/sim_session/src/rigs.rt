//! Clients made of rigs, and rigs taken back from clients. The rigs that have no client stay in the list in which all came,
//! and so does its room.

ghost use Rattle.std.specs.Prelude.{[], All, drop, length, replicate, vec_capacity, ◌++◌, ◌+◌, ◌<◌, ◌∷◌, ◌≡◌, ◌≤◌};
ghost use Rattle.sim_session.specs.Going.{AreFresh, AreMembers, lives_of, rigs_of, Seats, systems_of};
ghost use Rattle.{sim_base.specs.Limits.IsSetup, sim_client.specs.Lives.Off, sim_system.specs.Meanings.HaveKinds};

use sim_base::{Global, Setup};
use sim_client::Client;
use sim_orders::OrderTable;
use sim_system::{Rig, System};

// Makes a client of the first rig.
fn seat_one<'a>(
    alloc: Global,
    setup: &'a Setup,
    orders: &'a OrderTable,
    clients: &mut Vec<Client<'a>>,
    rigs: &mut Vec<Rig>,
    number: u8,
)
    requires limits { IsSetup setup.now }
    requires number { (0 < number) × (number ≤ setup.now.players) }
    requires room { length clients.old.items < vec_capacity clients.old }
    requires left { 0 < length rigs.old.items }
    requires fresh { AreFresh ⟦<dyn System as System>⟧ rigs.old.items }
    requires members { AreMembers setup.now clients.old.items ⟦<dyn System as System>⟧ }
    ensures seats { Seats ⟦<dyn System as System>⟧ setup.now (drop 1 rigs.old.items)
        (systems_of clients.old.items ⟦<dyn System as System>⟧ ++ rigs_of rigs.old.items ⟦<dyn System as System>⟧) (lives_of clients.old.items ++ Off ∷ [])
        clients.new.items rigs.old rigs.new }
    ensures room { vec_capacity clients.old ≤ vec_capacity clients.new }
{
    let client = Client::new(alloc, setup, orders, number, rigs.remove(0));
    match clients.push(client) {
        Ok(()) => {}
        Err(_) => unreachable!(),
    }
}

/// Makes a client of each of the first rigs, one for each player.
pub fn seat<'a>(
    alloc: Global,
    setup: &'a Setup,
    orders: &'a OrderTable,
    clients: &mut Vec<Client<'a>>,
    rigs: &mut Vec<Rig>,
)
    requires limits { IsSetup setup.now }
    requires none { clients.old.items ≡ [] }
    requires room { setup.now.players ≤ vec_capacity clients.old }
    requires enough { setup.now.players ≤ length rigs.old.items }
    requires fresh { AreFresh ⟦<dyn System as System>⟧ rigs.old.items }
    ensures { Seats ⟦<dyn System as System>⟧ setup.now (drop setup.now.players rigs.old.items) (rigs_of rigs.old.items ⟦<dyn System as System>⟧)
        (replicate setup.now.players Off) clients.new.items rigs.old rigs.new }
{
    for i in 0..setup.players {
        seat_one(alloc, setup, orders, clients, rigs, i + 1);
    }
}

// Puts a rig in front of the others, which have room for it.
fn put_back(rigs: &mut Vec<Rig>, rig: Rig)
    requires { length rigs.old.items < vec_capacity rigs.old }
    ensures rigs { rigs.new.items ≡ rig ∷ rigs.old.items }
    ensures kept { vec_capacity rigs.new ≡ vec_capacity rigs.old }
{
    match rigs.insert(0, rig) {
        Ok(()) => {}
        Err(_) => unreachable!(),
    }
}

/// Takes the rigs of all clients back, in front of the others.
pub fn unseat(clients: Vec<Client<'_>>, rigs: Vec<Rig>) -> Vec<Rig>
    requires kinds { All HaveKinds (systems_of clients.items ⟦<dyn System as System>⟧) }
    requires room { length clients.items + length rigs.items ≤ vec_capacity rigs }
    ensures systems { rigs_of result.items ⟦<dyn System as System>⟧ ≡ systems_of clients.entry.items ⟦<dyn System as System>⟧ ++ rigs_of rigs.items
        ⟦<dyn System as System>⟧ }
    ensures rest { drop (length clients.entry.items) result.items ≡ rigs.items }
    ensures kept { vec_capacity result ≡ vec_capacity rigs }
{
    let mut clients = clients;
    let mut rigs = rigs;
    while let Some(client) = clients.pop() {
        put_back(&mut rigs, client.finish());
    }
    rigs
}
