//! The server: running fields of what the list of all arrivals says.
//!
//! A call that is refused memory leaves the server as it was: what it says is made before anything is changed, and lists
//! by turn are grown by empty turns first, which say nothing.

ghost use Rattle.sim_server.specs.{Common.{Arrival, Cut, Heard, is_out, IsUpFrame, raw, takes_state, up_carries, UpOf}, Standing.{Answers, is_dropped}};
ghost use Rattle.sim_server.specs.Standing.{IsClient, IsLater, IsNoted, IsSilent, Makes, ReleasesNothing, SaysNoted, SaysTheSame, server_of, StandsFor};
ghost use Rattle.std.specs.Prelude.{false, IfOk, IsOk, List, true, ℕ, [], ◌<◌, ◌≡◌, ◌≤◌};
ghost use Rattle.sim_plain.specs.declared.message.UpOf.TheVariants as up;

use crate::audience::Audience;
use crate::faults::{
    command_fault_of, done_fault_of, entry_done_of, released_at_start, report_fault_of, takes,
};
use crate::kept::{Orders, keep, kept_of};
use crate::past::Past;
use crate::posts::{Posts, one, tell_ask};
use crate::references::{is_other, note, reference_of};
use crate::seats::{first_seats, is_outside, least_in_of, raised_of, reseat, seat_of, status_of};
use sim_base::{Command, Global, Items, OutOfMemory, PlayerCommand};
use sim_plain::{Rules, Status};
use sim_wire::{Bytes, Down, Up, WireFault, unframe_up};
use std::marker::Model;

/// A turn server. It keeps what each client is, the released turns, the commands by turn and the references by turn.
#[derive(Drop)]
pub struct Server {
    alloc: Global,
    rules: Rules,
    seats: [Status; 9],
    released: u32,
    kept: Vec<Orders>,
    references: Vec<Option<[u8; 16]>>,
}

impl Model for Server {
    ghost use Rattle.sim_server.specs.Standing.{IsWhole, View};

    ghost Value = { View };

    ghost view = { λ s. record { rules = s.rules; seats = s.seats; released = s.released; kept = s.kept.items; references = s.references.items } };

    ghost invariant = { λ s. IsWhole s.rules s.seats s.released };
}

impl Server {
    /// A server that heard nothing yet. Clients up to the active number begin in the match.
    pub fn new(
        alloc: Global,
        clients: u8,
        active: u8,
        delay: u8,
        turns: u32,
    ) -> Result<Server, OutOfMemory>
        requires clients { clients ≤ 8 }
        requires active { active ≤ clients }
        ensures rules { IfOk result (λ server. server.rules ≡ record { clients = clients; delay = delay; turns = turns }) }
        ensures stands { IfOk result (λ server. StandsFor server active []) }
        ensures sure { IsOk result }
    {
        let rules = Rules {
            clients,
            delay,
            turns,
        };
        let released = released_at_start(rules);
        Ok(Server {
            alloc,
            rules,
            seats: first_seats(active, released),
            released,
            kept: Vec::new(alloc),
            references: Vec::new(alloc),
        })
    }

    /// The turns that are released.
    pub fn released(&self) -> u32
        ensures { result ≡ (server_of self.now).released }
    {
        self.released
    }

    /// The commands that were kept of a turn.
    pub fn kept(&self, turn: u32) -> &[PlayerCommand]
        ensures { result.now ≡ (server_of self.now).kept turn }
    {
        kept_of(&self.kept, turn)
    }

    fn hear_join(&mut self, from: u8) -> Result<Posts, OutOfMemory>
        requires { IsClient self.old from }
        ensures made { Makes self.old (Heard from up.Join) result self.new }
        ensures dropped { is_out ((server_of self.old).status from) ≡ false → IsOk result }
    {
        if !is_outside(status_of(&self.seats, from)) {
            return Ok(Items::new(self.alloc));
        }
        let donor = least_in_of(&self.seats, self.rules.clients);
        let posts = tell_ask(self.alloc, donor, from)?;
        self.seats[from as usize] = seat_of(donor);
        Ok(posts)
    }

    fn hear_command(&mut self, from: u8, turn: u32, command: Command) -> Result<Posts, OutOfMemory>
        requires { IsClient self.old from }
        ensures { Makes self.old (Heard from (up.Command turn command)) result self.new }
    {
        let status = status_of(&self.seats, from);
        let known = kept_of(&self.kept, turn);
        if let Some(code) = command_fault_of(self.rules, known, from, turn, status) {
            return one(self.alloc, from, Down::Refused { code });
        }
        let order = PlayerCommand {
            player: from,
            command,
        };
        let down = Down::Command {
            turn,
            order: order.copy()?,
        };
        let audience = Audience {
            alloc: self.alloc,
            seats: &self.seats,
            clients: self.rules.clients,
        };
        let posts = audience.tell_all(&down)?;
        keep(self.alloc, &mut self.kept, turn, order)?;
        Ok(posts)
    }

    fn hear_done(&mut self, from: u8, turn: u32) -> Result<Posts, OutOfMemory>
        requires { IsClient self.old from }
        ensures made { Makes self.old (Heard from (up.Done turn)) result self.new }
        ensures quiet { ReleasesNothing self.old.rules (server_of self.old) from turn → IsOk result }
    {
        let status = status_of(&self.seats, from);
        if let Some(code) = done_fault_of(self.rules, self.released, turn, status) {
            return one(self.alloc, from, Down::Refused { code });
        }
        let mut seats = self.seats;
        seats[from as usize] = Status::In { done: turn };
        let risen = raised_of(&seats, self.rules.clients, self.released);
        let audience = Audience {
            alloc: self.alloc,
            seats: &seats,
            clients: self.rules.clients,
        };
        let posts = audience.tell_release(self.released, risen)?;
        self.seats = seats;
        self.released = risen;
        Ok(posts)
    }

    fn hear_report(&mut self, from: u8, turn: u32, digest: [u8; 16]) -> Result<Posts, OutOfMemory>
        requires { IsClient self.old from }
        ensures made { Makes self.old (Heard from (up.Report turn digest)) result self.new }
        ensures quiet { SaysTheSame (server_of self.old) from turn digest → IsOk result }
        ensures noted { IsNoted self.old from turn digest → IsOk result }
    {
        let status = status_of(&self.seats, from);
        if let Some(code) = report_fault_of(self.released, turn, status) {
            return one(self.alloc, from, Down::Refused { code });
        }
        let reference = reference_of(&self.references, turn);
        let audience = Audience {
            alloc: self.alloc,
            seats: &self.seats,
            clients: self.rules.clients,
        };
        let posts = audience.tell_notice(turn, from, is_other(reference, digest))?;
        note(&mut self.references, turn, digest)?;
        Ok(posts)
    }

    fn hear_state(
        &mut self,
        from: u8,
        client: u8,
        turn: u32,
        bytes: Bytes,
    ) -> Result<Posts, OutOfMemory>
        ensures made { Makes self.old (Heard from (up.State client turn bytes)) result self.new }
        ensures dropped { takes_state (server_of self.old).released from turn ((server_of self.old).status client) ≡ false → IsOk result }
    {
        let status = status_of(&self.seats, client);
        if !takes(self.released, from, turn, status) {
            return Ok(Items::new(self.alloc));
        }
        let done = entry_done_of(self.rules, self.released, turn);
        let past = Past {
            kept: &self.kept,
            turns: self.rules.turns,
            released: self.released,
        };
        let state = Down::State { done, bytes };
        let posts = past.tell_loading(self.alloc, client, turn, state)?;
        self.seats[client as usize] = Status::In { done };
        Ok(posts)
    }

    /// Hears what a client says.
    #[tactic(auto, using(crate::proofs::Made::answers))]
    pub fn hear(&mut self, from: u8, up: Up) -> Result<Posts, OutOfMemory>
        requires { IsClient self.old from }
        ensures made { Makes self.old (Heard from up) result self.new }
        ensures answers { (active : ℕ) (h : List (Arrival (List ℕ))) → StandsFor self.old active h → Answers self.old active h (Heard from up) result self.new }
        ensures later { IsLater from (server_of self.old) (server_of self.new) }
        ensures dropped { is_dropped (server_of self.old) from up ≡ true → IsOk result }
        ensures silent { IsSilent self.old.rules (server_of self.old) (Heard from up) → result ≡ Ok [] }
        ensures noted { SaysNoted self.old from up → result ≡ Ok [] }
    {
        // The invariant of the fields holds here, which `later` rests on.
        let _ = &self.seats;
        match up {
            Up::Join => self.hear_join(from),
            Up::Command { turn, command } => self.hear_command(from, turn, command),
            Up::Done { turn } => self.hear_done(from, turn),
            Up::Report { turn, digest } => self.hear_report(from, turn, digest),
            Up::State {
                client,
                turn,
                bytes,
            } => self.hear_state(from, client, turn, bytes),
        }
    }

    /// Sees that the connection of a client has ended.
    #[tactic(auto, using(crate::proofs::Made::answers))]
    pub fn cut(&mut self, client: u8) -> Result<Posts, OutOfMemory>
        requires { IsClient self.old client }
        ensures made { Makes self.old (Cut client) result self.new }
        ensures answers { (active : ℕ) (h : List (Arrival (List ℕ))) → StandsFor self.old active h → Answers self.old active h (Cut client) result self.new }
        ensures later { IsLater client (server_of self.old) (server_of self.new) }
        ensures silent { IsSilent self.old.rules (server_of self.old) (Cut client) → result ≡ Ok [] }
    {
        let clients = self.rules.clients;
        let mut seats = self.seats;
        seats[client as usize] = Status::Out;
        let risen = raised_of(&seats, clients, self.released);
        let audience = Audience {
            alloc: self.alloc,
            seats: &seats,
            clients,
        };
        let posts = audience.tell_cut(self.released, risen, client)?;
        let donor = least_in_of(&seats, clients);
        reseat(&mut seats, client, seat_of(donor));
        self.seats = seats;
        self.released = risen;
        Ok(posts)
    }

    /// Hears bytes as they came. A client whose bytes are no frame is cut off.
    pub fn hear_frame(&mut self, from: u8, bytes: &[u8]) -> Result<Posts, OutOfMemory>
        requires { IsClient self.old from }
        ensures frame { (message : UpOf (List ℕ)) → IsUpFrame bytes.now message → Makes self.old (Heard from message) result self.new }
        ensures other { ((message : UpOf (List ℕ)) → IsUpFrame bytes.now message → ⊥) → Makes self.old (Cut from) result self.new }
        ensures made { Makes self.old (raw from bytes.now) result self.new }
        ensures answers { (active : ℕ) (h : List (Arrival (List ℕ))) → StandsFor self.old active h → Answers self.old active h (raw from bytes.now) result
            self.new }
        ensures later { IsLater from (server_of self.old) (server_of self.new) }
        ensures silent { ((message : UpOf (List ℕ)) → IsUpFrame bytes.now message → ⊥) → IsSilent self.old.rules (server_of self.old) (Cut from)
            → result ≡ Ok [] }
        ensures light { (message : UpOf (List ℕ)) → IsUpFrame bytes.now message → up_carries message ≡ false
            → IsSilent self.old.rules (server_of self.old) (Heard from message) → result ≡ Ok [] }
        ensures noted { (message : UpOf (List ℕ)) → IsUpFrame bytes.now message → SaysNoted self.old from message → result ≡ Ok [] }
    {
        match unframe_up(self.alloc, bytes) {
            Ok(up) => self.hear(from, up),
            Err(WireFault::OutOfMemory) => Err(OutOfMemory),
            Err(_) => self.cut(from),
        }
    }
}
