//! What the server hears, with its answer sent down the pipes of the clients.

ghost use Rattle.std.specs.Prelude.{◌≡◌, ℕ, suc, false, List, length, IfOk, OnOk, IsOk};
ghost use Rattle.sim_pipes.specs.{Pipes.Sends, Posts.notice_events};
ghost use Rattle.sim_pipes.specs.Common.{Cut, Heard, IsClient, IsSilent, IsSmallServer, IsUpFrame, noticed, server_of, up_carries, UpOf};

use crate::notice::push_notices;
use crate::pipe::Pipe;
use crate::sending::deliver;
use sim_base::{Events, Global, Items, OutOfMemory};
use sim_server::Server;

/// Hears the frame of a client, sends what the server says to all clients, and answers what is printed of it.
pub fn hear(
    alloc: Global,
    server: &mut Server,
    downs: &mut Vec<Pipe>,
    client: u8,
    frame: &[u8],
) -> Result<Events, OutOfMemory>
    requires client { IsClient server.old client }
    requires small { IsSmallServer (server_of server.old) }
    requires count { length downs.old.items ≡ suc server.old.rules.clients }
    ensures heard { (message : UpOf (List ℕ)) → IsUpFrame frame.now message
        → OnOk result (Sends server.old downs.old.items (Heard client message) server.new downs.new.items) }
    ensures events { (message : UpOf (List ℕ)) → IsUpFrame frame.now message
        → IfOk result (λ events. events ≡ notice_events (noticed server.old.rules (server_of server.old) (Heard client message))) }
    ensures light { (message : UpOf (List ℕ)) → IsUpFrame frame.now message → up_carries message ≡ false
        → IsSilent server.old.rules (server_of server.old) (Heard client message) → IsOk result }
    ensures rules { server.new.rules ≡ server.old.rules }
    ensures small { IsSmallServer (server_of server.new) }
    ensures count { length downs.new.items ≡ length downs.old.items }
{
    let posts = server.hear_frame(client, frame)?;
    deliver(alloc, downs, &posts)?;
    let mut events = Items::new(alloc);
    push_notices(&mut events, client, &posts)?;
    Ok(events)
}

/// Sees that a client is cut off, and sends what the server says to all clients.
pub fn see_cut(
    alloc: Global,
    server: &mut Server,
    downs: &mut Vec<Pipe>,
    client: u8,
) -> Result<(), OutOfMemory>
    requires client { IsClient server.old client }
    requires small { IsSmallServer (server_of server.old) }
    requires count { length downs.old.items ≡ suc server.old.rules.clients }
    ensures heard { OnOk result (Sends server.old downs.old.items (Cut client) server.new downs.new.items) }
    ensures silent { IsSilent server.old.rules (server_of server.old) (Cut client) → IsOk result }
    ensures rules { server.new.rules ≡ server.old.rules }
    ensures small { IsSmallServer (server_of server.new) }
    ensures count { length downs.new.items ≡ length downs.old.items }
{
    let posts = server.cut(client)?;
    deliver(alloc, downs, &posts)
}
