//! The turn server that is held.

ghost use Rattle.std.specs.Prelude.{[], false, IfErr, IfOk, IsOk, List, nat_le, nat_lt, OnErr, Option, true, ℕ, ◌&&◌, ◌≡◌, ◌≤◌};
ghost use Rattle.sim_held.specs.Servers.{Answers, CutsOff, frames_for, HasLost, Hears, HearsFrame, is_client as is_client_of, IsServer, IsServerOf, Leaves};
ghost use Rattle.{sim_embed.specs.Bytes.OfMatch, sim_embed.specs.Causes.IsNoMatch, sim_held.specs.Servers.waiting, sim_plain.specs.Messages.Heard};
ghost use Rattle.{sim_server.specs.Standing.server_of, sim_wire.specs.Reading.IsSmallUp};

use crate::stage::Went;
use crate::waiting::{frames_to, keep, leave};
use sim_base::{Global, OutOfMemory};
use sim_embed::{Refused, match_of};
use sim_server::{Posts, Server};
use sim_wire::{Up, WireFault, unframe_up};
use std::marker::Model;

/// A turn server, and what it has said to clients that have not taken it yet. After want of memory it is as it was.
#[derive(Drop)]
pub struct HeldServer {
    alloc: Global,
    clients: u8,
    server: Server,
    said: Vec<Posts>,
}

impl Model for HeldServer {
    ghost use Rattle.sim_held.specs.Servers.{IsReady, ServerView};

    ghost Value = { ServerView };

    ghost view = { λ s. record { server = s.server; said = s.said.items } };

    ghost invariant = { λ s. IsReady s.clients s.server s.said.items };
}

// Clients have the numbers from 1.
fn is_client(clients: u8, number: u8) -> bool
    ensures { result ≡ (nat_lt 0 number && nat_le number clients) }
{
    0 < number && number <= clients
}

impl HeldServer {
    /// A server for so many clients, 8 at most, of which the first ones begin in the match; for a match with this delay and so many
    /// turns. None where there are more than 8, or more begin than there are.
    pub fn with_rules(
        alloc: Global,
        clients: u8,
        active: u8,
        delay: u8,
        turns: u32,
    ) -> Option<HeldServer>
        ensures { IsServer clients active delay turns result }
    {
        if 8 < clients || clients < active {
            return None;
        }
        let Ok(server) = Server::new(alloc, clients, active, delay, turns) else {
            unreachable!();
        };
        Some(HeldServer {
            alloc,
            clients,
            server,
            said: Vec::new(alloc),
        })
    }

    /// The server of the match that bytes are, with a client for each player, of which the first ones begin in the match; None where
    /// more begin than there are.
    pub fn new(alloc: Global, game: &[u8], active: u8) -> Result<Option<HeldServer>, Refused>
        ensures is { IfOk result (λ server. OfMatch game.now (λ setup. IsServerOf setup active server)) }
        ensures refused { IfErr result (IsNoMatch game.now) }
    {
        let setup = match_of(alloc, game)?;
        Ok(HeldServer::with_rules(alloc, setup.players, active, setup.delay, setup.turns))
    }

    /// Hears bytes as they came from a client. Bytes that are no frame are refused, and the client is cut off, as by `cut`: its connection
    /// has to be closed.
    pub fn hear(&mut self, from: u8, frame: &[u8]) -> Result<Went, OutOfMemory>
        ensures { HearsFrame from frame.now self.old result self.new }
    {
        if !is_client(self.clients, from) {
            return Ok(Went::Idle);
        }
        match unframe_up(self.alloc, frame) {
            Ok(up) => self.hear_up(from, up),
            Err(WireFault::OutOfMemory) => Err(OutOfMemory),
            Err(_) => self.cut_as(from, Went::Refused),
        }
    }

    // Hears what a client says.
    fn hear_up(&mut self, from: u8, up: Up) -> Result<Went, OutOfMemory>
        requires small { IsSmallUp up }
        requires client { is_client_of self.old.server from ≡ true }
        ensures { Answers true Went.Done (Hears (Heard from up)) self.old result self.new }
    {
        self.said.reserve(1)?;
        let posts = self.server.hear(from, up)?;
        keep(&mut self.said, posts);
        Ok(Went::Done)
    }

    // Cuts a client off, and answers so.
    fn cut_as(&mut self, client: u8, went: Went) -> Result<Went, OutOfMemory>
        requires { is_client_of self.old.server client ≡ true }
        ensures { Answers true went (CutsOff client) self.old result self.new }
    {
        self.said.reserve(1)?;
        let posts = self.server.cut(client)?;
        leave(self.alloc, &mut self.said, client);
        keep(&mut self.said, posts);
        Ok(went)
    }

    /// Sees that the connection of a client has ended. What waits for it is dropped.
    pub fn cut(&mut self, client: u8) -> Result<Went, OutOfMemory>
        ensures { HasLost client self.old result self.new }
    {
        if !is_client(self.clients, client) {
            return Ok(Went::Idle);
        }
        self.cut_as(client, Went::Done)
    }

    /// The frames that wait for a client, one behind another.
    pub fn said(&self, client: u8) -> Result<Vec<u8>, OutOfMemory>
        ensures bytes { IfOk result (λ bytes. bytes.items ≡ frames_for self.now.said client) }
        ensures nobody { is_client_of self.now.server client ≡ false → IfOk result (λ bytes. bytes.items ≡ []) }
        ensures none { waiting self.now.said client ≡ [] → IsOk result }
        ensures stranger { is_client_of self.now.server client ≡ false → IsOk result }
    {
        frames_to(self.alloc, &self.said, client)
    }

    /// Lets go what waits for a client, as it was sent.
    pub fn sent(&mut self, client: u8)
        ensures { Leaves client self.old self.new }
    {
        leave(self.alloc, &mut self.said, client);
    }

    /// Takes the frames that wait for a client, one behind another.
    pub fn take(&mut self, client: u8) -> Result<Vec<u8>, OutOfMemory>
        ensures bytes { IfOk result (λ bytes. (bytes.items ≡ frames_for self.old.said client) × Leaves client self.old self.new) }
        ensures nobody { is_client_of self.old.server client ≡ false → IfOk result (λ bytes. bytes.items ≡ []) }
        ensures none { waiting self.old.said client ≡ [] → IsOk result }
        ensures stranger { is_client_of self.old.server client ≡ false → IsOk result }
        ensures err { OnErr result (self.new ≡ self.old) }
    {
        let bytes = frames_to(self.alloc, &self.said, client)?;
        leave(self.alloc, &mut self.said, client);
        Ok(bytes)
    }

    /// The turns that are released.
    pub fn released(&self) -> u32
        ensures { result ≡ (server_of self.now.server).released }
    {
        self.server.released()
    }
}
