//! The server of a session with the pipes to and from all clients.
//!
//! After want of memory it may only be let go: a message may be lost then.

ghost use Rattle.std.specs.Prelude.{[], All, false, IfOk, if◌then◌else◌, IsOk, List, map, OnOk, suc, ℕ, ◌∷◌, ◌≡◌, ◌≤◌};
ghost use Rattle.sim_pipes.specs.Common.{Acted, acts, carry_up, Cut, cut as cut_off, down_carries, DownOf, Heard, IsClient, IsDownFrame, IsSilent, IsSmallUp};
ghost use Rattle.sim_pipes.specs.Common.{IsUpFrame, opened, rise_events, rises, rules_of, server_of, Session, Setup as PlainSetup, spelled, up_carries, UpOf};
ghost use Rattle.sim_pipes.specs.Pipes.{AreEmpty, AreFrames, Conveys, Falls, pipe_in, Reads};

use crate::hearing::{hear, see_cut};
use crate::pipe::Pipe;
use crate::sending::send_all_up;
use sim_base::{Events, Global, Items, OutOfMemory};
use sim_server::Server;
use sim_wire::{Bytes, Down, Up, WireFault, unframe_down};
use std::marker::Model;

/// The server of a session, and for each client a pipe to it and one from it. They stand by the number of the client; what
/// stands at 0 is nobody's.
#[derive(Drop)]
pub struct Exchange {
    alloc: Global,
    ups: Vec<Pipe>,
    downs: Vec<Pipe>,
    server: Server,
}

impl Model for Exchange {
    ghost use Rattle.sim_pipes.specs.Pipes.{Held, IsReady};

    ghost Value = { Held };

    ghost view = { λ x. record { ups = x.ups.items; downs = x.downs.items; server = x.server } };

    ghost invariant = { λ x. IsReady (record { ups = x.ups.items; downs = x.downs.items; server = x.server }) };
}

// Empty pipes, one for each number up to that of the last client.
fn pipes(alloc: Global, clients: u8) -> Result<Vec<Pipe>, OutOfMemory>
    ensures { IfOk result (λ pipes. AreEmpty (suc clients) pipes.items) }
{
    let mut pipes = Vec::new(alloc);
    for _ in 0..clients as usize + 1 {
        pipes.push(Pipe::new(alloc))?;
    }
    Ok(pipes)
}

// Reads the first frame in a pipe, and takes it out. Bytes that are no frame say nothing.
fn read(alloc: Global, pipe: &mut Pipe) -> Result<Option<Down>, OutOfMemory>
    ensures reads { (messages : List (DownOf (List ℕ))) → AreFrames IsDownFrame pipe.old messages → IfOk result (λ read. Reads pipe.new messages read) }
    ensures none { pipe.old ≡ [] → result ≡ Ok None }
    ensures light { (frame : List ℕ) (rest : List (List ℕ)) (message : DownOf (List ℕ)) → pipe.old ≡ frame ∷ rest → IsDownFrame frame message
        → down_carries message ≡ false → result ≡ Ok (Some message) }
{
    let Some(frame) = pipe.take() else {
        return Ok(None);
    };
    match unframe_down(alloc, frame.as_slice()) {
        Ok(down) => Ok(Some(down)),
        Err(WireFault::OutOfMemory) => Err(OutOfMemory),
        Err(WireFault::TooLong) => Ok(None),
        Err(WireFault::NotFrame) => Ok(None),
    }
}

impl Exchange {
    /// The exchange of a session that has not begun. Clients up to the active number take part from the beginning.
    pub fn new(
        alloc: Global,
        clients: u8,
        active: u8,
        delay: u8,
        turns: u32,
    ) -> Result<Exchange, OutOfMemory>
        requires clients { clients ≤ 8 }
        requires active { active ≤ clients }
        ensures { IfOk result (λ x. (setup : PlainSetup) → rules_of setup ≡ record { clients = clients; delay = delay; turns = turns }
            → Conveys setup x (opened setup active)) }
    {
        Ok(Exchange {
            alloc,
            ups: pipes(alloc, clients)?,
            downs: pipes(alloc, clients)?,
            server: Server::new(alloc, clients, active, delay, turns)?,
        })
    }

    /// The server.
    pub fn server(&self) -> &Server
        ensures { result.now ≡ self.now.server }
    {
        &self.server
    }

    /// The frames in the pipe of a client to the server, or in the one to the client.
    pub fn pipe(&self, client: u8, up: bool) -> &[Bytes]
        requires { client ≤ self.now.server.rules.clients }
        ensures { result.now ≡ pipe_in (if up then self.now.ups else self.now.downs) client }
    {
        if up {
            self.ups[client as usize].frames()
        } else {
            self.downs[client as usize].frames()
        }
    }

    /// Sends what a client says up its pipe.
    pub fn send(&mut self, client: u8, ups: &[Up]) -> Result<(), OutOfMemory>
        requires client { client ≤ self.old.server.rules.clients }
        requires small { All IsSmallUp ups.now }
        ensures stands { (setup : PlainSetup) (s : Session) (acted : Acted) → Conveys setup self.old s → ups.now ≡ map (carry_up (spelled setup)) acted.says
            → OnOk result (Conveys setup self.new (acts client acted s)) }
        ensures none { ups.now ≡ [] → IsOk result }
        ensures rules { self.new.server.rules ≡ self.old.server.rules }
    {
        send_all_up(self.alloc, &mut self.ups[client as usize], ups)
    }

    /// The server hears the first frame in the pipe of a client, if there is one.
    pub fn rise(&mut self, client: u8) -> Result<Events, OutOfMemory>
        requires { IsClient self.old.server client }
        ensures stands { (setup : PlainSetup) (s : Session) → Conveys setup self.old s
            → OnOk result (Conveys setup self.new (rises setup client (s.ups client) s)) }
        ensures events { (setup : PlainSetup) (s : Session) → Conveys setup self.old s
            → IfOk result (λ events. events ≡ rise_events setup s.server client (s.ups client)) }
        ensures none { pipe_in self.old.ups client ≡ [] → result ≡ Ok [] }
        ensures light { (frame : List ℕ) (rest : List (List ℕ)) (message : UpOf (List ℕ)) → pipe_in self.old.ups client ≡ frame ∷ rest → IsUpFrame frame message
            → up_carries message ≡ false → IsSilent self.old.server.rules (server_of self.old.server) (Heard client message) → IsOk result }
        ensures rules { self.new.server.rules ≡ self.old.server.rules }
    {
        let Some(frame) = self.ups[client as usize].take() else {
            return Ok(Items::new(self.alloc));
        };
        hear(
            self.alloc,
            &mut self.server,
            &mut self.downs,
            client,
            frame.as_slice(),
        )
    }

    /// The first message in the pipe to a client, if there is one. It is taken out.
    pub fn fall(&mut self, client: u8) -> Result<Option<Down>, OutOfMemory>
        requires { IsClient self.old.server client }
        ensures stands { (setup : PlainSetup) (s : Session) → Conveys setup self.old s → IfOk result (Falls setup self.new client s (s.downs client)) }
        ensures none { pipe_in self.old.downs client ≡ [] → result ≡ Ok None }
        ensures light { (frame : List ℕ) (rest : List (List ℕ)) (message : DownOf (List ℕ)) → pipe_in self.old.downs client ≡ frame ∷ rest
            → IsDownFrame frame message
            → down_carries message ≡ false → result ≡ Ok (Some message) }
        ensures rules { self.new.server.rules ≡ self.old.server.rules }
    {
        read(self.alloc, &mut self.downs[client as usize])
    }

    /// A client is cut off: its pipes are empty, and the server sees it gone.
    pub fn cut(&mut self, client: u8) -> Result<(), OutOfMemory>
        requires { IsClient self.old.server client }
        ensures stands { (setup : PlainSetup) (s : Session) → Conveys setup self.old s → OnOk result (Conveys setup self.new (cut_off setup client s)) }
        ensures silent { IsSilent self.old.server.rules (server_of self.old.server) (Cut client) → IsOk result }
        ensures rules { self.new.server.rules ≡ self.old.server.rules }
    {
        self.ups[client as usize].clear();
        self.downs[client as usize].clear();
        see_cut(self.alloc, &mut self.server, &mut self.downs, client)
    }
}
