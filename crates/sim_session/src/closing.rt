//! What a session has come to: its server, the clients that differ, what each client is, and what lies in the pipes.

ghost use Rattle.{sim_client.specs.ClientWords.life, sim_pipes.specs.Pipes.pipe_in};
ghost use Rattle.std.specs.Prelude.{◌≡◌, ◌≤◌, ◌++◌, length, OnOk, string_bytes};
ghost use Rattle.sim_session.specs.Seen.{beside_seen, ending_seen, ends_seen, IsMember, life_at, MayBeTold, pairs_seen, pipes_seen};

use crate::clients::{end_of, push_pair};
use crate::ending::push_end;
use crate::pipe::push_pipe;
use crate::told::push_server;
use sim_base::{OutOfMemory, Setup};
use sim_client::Client;
use sim_pipes::Exchange;
use sim_system::System;

/// Appends what a session of this match has come to: what the server has released and keeps, a line of each two clients that
/// differ, a line of each client, and the lines of the two pipes of each. The clients come by their numbers, the first is 1.
pub fn push_ending(
    setup: &Setup,
    clients: &[Client<'_>],
    exchange: &Exchange,
    out: &mut String,
) -> Result<(), OutOfMemory>
    requires clients { MayBeTold setup.now ⟦<dyn System as System>⟧ clients.now }
    requires served { length clients.now ≤ exchange.now.server.rules.clients }
    ensures { OnOk result (string_bytes out.new ≡ string_bytes out.old ++ ending_seen setup.now (life_at clients.now) exchange.now (length clients.now)) }
{
    push_server(exchange.server(), setup.turns, out)?;
    push_pairs(setup, clients, out)?;
    push_ends(setup, clients, out)?;
    push_pipes(exchange, clients.len() as u8, out)
}

// Appends a line of each two clients that differ.
fn push_pairs(setup: &Setup, clients: &[Client<'_>], out: &mut String) -> Result<(), OutOfMemory>
    requires { MayBeTold setup.now ⟦<dyn System as System>⟧ clients.now }
    ensures { OnOk result (string_bytes out.new ≡ string_bytes out.old ++ pairs_seen (life_at clients.now) (length clients.now)) }
{
    for (index, left) in clients.iter().enumerate() {
        push_beside(setup, index as u8 + 1, left, clients, out)?;
    }
    Ok(())
}

// Appends a line of a client and each later one, where the two differ.
fn push_beside(
    setup: &Setup,
    number: u8,
    left: &Client<'_>,
    clients: &[Client<'_>],
    out: &mut String,
) -> Result<(), OutOfMemory>
    requires left { IsMember setup.now ⟦<dyn System as System>⟧ left.now }
    requires is { life left.now ≡ life_at clients.now number }
    requires clients { MayBeTold setup.now ⟦<dyn System as System>⟧ clients.now }
    ensures { OnOk result (string_bytes out.new ≡ string_bytes out.old ++ beside_seen (life_at clients.now) (length clients.now) number) }
{
    for (index, right) in clients.iter().enumerate() {
        push_pair((number, index as u8 + 1), left, right, out)?;
    }
    Ok(())
}

// Appends a line of each client.
fn push_ends(setup: &Setup, clients: &[Client<'_>], out: &mut String) -> Result<(), OutOfMemory>
    requires { MayBeTold setup.now ⟦<dyn System as System>⟧ clients.now }
    ensures { OnOk result (string_bytes out.new ≡ string_bytes out.old ++ ends_seen setup.now (life_at clients.now) (length clients.now)) }
{
    for (index, client) in clients.iter().enumerate() {
        push_end(index as u8 + 1, &end_of(client), out)?;
    }
    Ok(())
}

/// Appends the lines of the two pipes of each client up to this one.
pub fn push_pipes(exchange: &Exchange, clients: u8, out: &mut String) -> Result<(), OutOfMemory>
    requires { clients ≤ exchange.now.server.rules.clients }
    ensures { OnOk result (string_bytes out.new ≡ string_bytes out.old ++ pipes_seen (pipe_in exchange.now.ups) (pipe_in exchange.now.downs) clients) }
{
    for before in 0..clients {
        let client = before + 1;
        push_pipe(client, "up", exchange.pipe(client, true), out)?;
        push_pipe(client, "down", exchange.pipe(client, false), out)?;
    }
    Ok(())
}
