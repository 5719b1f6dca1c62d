//! A session. After want of memory it may only be finished.

ghost use Rattle.{sim_client.specs.{ClientWords.{IsSound, life, setup_in as client_setup_in}, Lives.{Off, starts}}, sim_pipes.specs.Pipes.pipe_in};
ghost use Rattle.sim_plain_session.specs.Sessions.{client_of as client_in, opened};
ghost use Rattle.sim_session.specs.Going.{AreMembers, AreOfClients, clients_in, GoesOn, HasOpened, IsOn, IsSession, lives_of, MayBegin, MayFinish, rigs_of};
ghost use Rattle.sim_session.specs.Going.{room_in, seen_in, setup_in, spare_in, systems_in, systems_of, Takes};
ghost use Rattle.{sim_session.specs.Standing.{IsNumber, IsSmallStep, life_of, StandsFor, StartsOnly, Steps}, sim_system.specs.Meanings.HaveKinds};
ghost use Rattle.std.specs.Prelude.{All, drop, IfErr, IfOk, if◌then◌else◌, length, OnOk, vec_capacity, ℕ, ◌++◌, ◌<◌, ◌≡◌, ◌≤◌};

use crate::acting::{act, client_of};
use crate::rigs::{seat, unseat};
use sim_base::{Events, Global, OutOfMemory, Setup, Step};
use sim_client::{Client, Digests};
use sim_orders::OrderTable;
use sim_pipes::Exchange;
use sim_server::Server;
use sim_system::{Rig, System};
use sim_wire::Bytes;

/// A session of a match: a client for each player, the server, the pipes between them, and the digests of the states that clients
/// came to last.
#[derive(Drop)]
pub struct Session<'a> {
    alloc: Global,
    setup: &'a Setup,
    clients: Vec<Client<'a>>,
    exchange: Exchange,
    digests: Digests,
    rigs: Vec<Rig>,
}

// The first clients begin in the match at its first state.
fn start_all(setup: &Setup, clients: &mut Vec<Client<'_>>, count: u8) -> Result<(), OutOfMemory>
    requires members { AreMembers setup.now clients.old.items ⟦<dyn System as System>⟧ }
    requires count { count ≤ length clients.old.items }
    requires kinds { All HaveKinds (systems_of clients.old.items ⟦<dyn System as System>⟧) }
    requires off { (c : ℕ) → 0 < c → c ≤ count → life_of (lives_of clients.old.items) c ≡ Off }
    ensures starts { OnOk result ((c : ℕ) → 0 < c → c ≤ count → life_of (lives_of clients.new.items) c ≡ starts setup.now) }
    ensures others { (c : ℕ) → count < c → life_of (lives_of clients.new.items) c ≡ life_of (lives_of clients.old.items) c }
    ensures members { OnOk result (AreMembers setup.now clients.new.items ⟦<dyn System as System>⟧) }
    ensures kinds { All HaveKinds (systems_of clients.new.items ⟦<dyn System as System>⟧) }
    ensures built { StartsOnly count (systems_of clients.old.items ⟦<dyn System as System>⟧) (systems_of clients.new.items ⟦<dyn System as System>⟧) }
    ensures count { length clients.new.items ≡ length clients.old.items }
{
    for i in 0..count {
        let client = &mut clients[i as usize];
        client.start()?;
    }
    Ok(())
}

impl<'a> Session<'a> {
    /// A session that has not begun, in which client c has the c-th of eight rigs.
    pub fn new(
        alloc: Global,
        setup: &'a Setup,
        orders: &'a OrderTable,
        rigs: Vec<Rig>,
    ) -> Result<Session<'a>, Vec<Rig>>
        requires { MayBegin ⟦<dyn System as System>⟧ setup.now rigs.items }
        ensures session { IfOk result (λ session. IsSession session ⟦<dyn System as System>⟧) }
        ensures setup { IfOk result (λ session. setup_in session ≡ setup.now) }
        ensures opened { IfOk result (λ session. StandsFor setup.now (seen_in session) (opened setup.now 0)) }
        ensures systems { IfOk result (λ session. systems_in session ⟦<dyn System as System>⟧ ++ rigs_of (spare_in session) ⟦<dyn System as System>⟧ ≡
            rigs_of rigs.items ⟦<dyn System as System>⟧) }
        ensures spare { IfOk result (λ session. spare_in session ≡ drop setup.now.players rigs.items) }
        ensures room { IfOk result (λ session. room_in session ≡ vec_capacity rigs) }
        ensures back { IfErr result (λ given. given ≡ rigs) }
    {
        let players = setup.players;
        let Ok(exchange) = Exchange::new(alloc, players, 0, setup.delay, setup.turns) else {
            return Err(rigs);
        };
        let Ok(clients) = Vec::with_capacity(alloc, players as usize) else {
            return Err(rigs);
        };
        let mut clients = clients;
        let mut rigs = rigs;
        seat(alloc, setup, orders, &mut clients, &mut rigs);
        Ok(Session {
            alloc,
            setup,
            clients,
            exchange,
            digests: Digests::new(alloc),
            rigs,
        })
    }

    /// Clients 1 to this number begin in the match. It is called once, before every step.
    pub fn start(&mut self, clients: u8) -> Result<(), OutOfMemory>
        requires { HasOpened ⟦<dyn System as System>⟧ 0 clients self.old }
        ensures stands { OnOk result (StandsFor (setup_in self.old) (seen_in self.new) (opened (setup_in self.old) clients)) }
        ensures built { StartsOnly clients (systems_in self.old ⟦<dyn System as System>⟧) (systems_in self.new ⟦<dyn System as System>⟧) }
        ensures goes { GoesOn ⟦<dyn System as System>⟧ result self.old self.new }
    {
        let setup = self.setup;
        self.exchange = Exchange::new(
            self.alloc,
            setup.players,
            clients,
            setup.delay,
            setup.turns,
        )?;
        start_all(setup, &mut self.clients, clients)
    }

    /// Makes one step, and answers what is printed of it. Only a state that is loaded builds the systems of its client, also
    /// where memory was refused; and a step that is not enabled takes none.
    pub fn step(&mut self, step: &Step) -> Result<Events, OutOfMemory>
        requires on { IsOn ⟦<dyn System as System>⟧ self.old }
        requires client { IsNumber (setup_in self.old) (client_in step.now) }
        requires few { IsSmallStep step.now }
        ensures steps { IfOk result (λ events. Steps (setup_in self.old) (seen_in self.old) step.now (seen_in self.new) events) }
        ensures takes { Takes ⟦<dyn System as System>⟧ step.now result self.old self.new }
        ensures goes { GoesOn ⟦<dyn System as System>⟧ result self.old self.new }
    {
        let number = client_of(step);
        let client = &mut self.clients[number as usize - 1];
        act(
            self.alloc,
            client,
            &mut self.exchange,
            &mut self.digests,
            step,
        )
    }

    /// The match.
    pub fn setup(&self) -> &'a Setup
        ensures { result.now ≡ setup_in self.now }
    {
        self.setup
    }

    /// The clients, client 1 first.
    pub fn clients(&self) -> &[Client<'a>]
        ensures { result.now ≡ clients_in self.now }
    {
        self.clients.as_slice()
    }

    /// The server with the pipes.
    pub fn exchange(&self) -> &Exchange
        ensures { result.now ≡ (seen_in self.now).held }
    {
        &self.exchange
    }

    /// The client of a number.
    pub fn client(&self, number: u8) -> &Client<'a>
        requires session { IsSession self.now ⟦<dyn System as System>⟧ }
        requires number { IsNumber (setup_in self.now) number }
        ensures life { life result.now ≡ life_of (seen_in self.now).lives number }
        ensures sound { IsSound result.now ⟦<dyn System as System>⟧ }
        ensures setup { client_setup_in result.now ≡ setup_in self.now }
    {
        &self.clients[number as usize - 1]
    }

    /// The frames in the pipe from a client, or in that to it, the first to be heard first.
    pub fn pipe(&self, number: u8, up: bool) -> &[Bytes]
        requires session { IsSession self.now ⟦<dyn System as System>⟧ }
        requires number { IsNumber (setup_in self.now) number }
        ensures { result.now ≡ pipe_in (if up then (seen_in self.now).held.ups else (seen_in self.now).held.downs) number }
    {
        self.exchange.pipe(number, up)
    }

    /// The server.
    pub fn server(&self) -> &Server
        ensures { result.now ≡ (seen_in self.now).held.server }
    {
        self.exchange.server()
    }

    /// Gives back all rigs, in the order and in the room in which they came. Those of clients come as these leave them.
    pub fn finish(self) -> Vec<Rig>
        requires { MayFinish self ⟦<dyn System as System>⟧ }
        ensures systems { rigs_of result.items ⟦<dyn System as System>⟧ ≡ systems_in self.entry ⟦<dyn System as System>⟧ ++ rigs_of (spare_in self.entry)
            ⟦<dyn System as System>⟧ }
        ensures stand { IsSession self.entry ⟦<dyn System as System>⟧ → AreOfClients (setup_in self.entry) (seen_in self.entry).lives
            (rigs_of result.items ⟦<dyn System as System>⟧) }
        ensures spare { drop (length (systems_in self.entry ⟦<dyn System as System>⟧)) result.items ≡ spare_in self.entry }
        ensures room { vec_capacity result ≡ room_in self.entry }
    {
        let Session { clients, rigs, .. } = self;
        unseat(clients, rigs)
    }
}
