//! What a client that is on does with its board, and what it keeps beside.

ghost use Rattle.sim_base.specs.{declared.state.State.State as AnyState, Limits.{IsSetup, IsValid}, Spelling.{mark as mark_in, spelling}};
ghost use Rattle.{sim_board.specs.Boards.{AreKept, state_in, systems}, sim_client.specs.ClientWords.{Answers, did_in, HasDigest, NeedsNoMemory, Plays}};
ghost use Rattle.sim_client.specs.Lives.{hears, may_play as may_play_by, On, orders as orders_by, played, told};
ghost use Rattle.{sim_client.specs.StageWords.{AreByPlayers, IsPlaying, known_in, player_at}, sim_plain_session.specs.Pasts.is_client as is_client_by};
ghost use Rattle.std.specs.Prelude.{false, IfOk, IsOk, min, nat_lt, None, OnOk, Option, [], ◌&&◌, ◌+◌, ◌<◌, ◌^◌, ◌∷◌, ◌≡◌};
ghost use Rattle.sim_plain.specs.declared.message.UpOf.TheVariants as up;

use crate::did::{Did, Played, Ups, one, silent};
use crate::digests::Digests;
use crate::known::Known;
use crate::stage::Seat;
use sim_base::{Command, Global, Items, OutOfMemory, Setup, State};
use sim_board::Board;
use sim_codec::{mark, spell};
use sim_orders::OrderTable;
use sim_system::System;
use sim_turn::turn;
use sim_wire::{Down, Up};

/// The seat of a client that knows of no command and has given none.
pub fn begin(alloc: Global, released: u32, done: u32) -> Seat
    ensures known { known_in result.known ≡ (λ t. []) }
    ensures released { result.released ≡ released }
    ensures done { result.done ≡ done }
    ensures orders { result.orders ≡ 0 }
{
    Seat {
        known: Known::new(alloc),
        released,
        done,
        orders: 0,
    }
}

// Whether the turn behind its done is one of the match, and fewer than 64 commands were given for it.
fn may_order(setup: &Setup, seat: &Seat) -> bool
    ensures { result ≡ (nat_lt seat.now.done setup.now.turns && nat_lt seat.now.orders 64) }
{
    seat.done < setup.turns && seat.orders < 64
}

/// Gives a command, where it may.
pub fn order(
    alloc: Global,
    setup: &Setup,
    seat: &mut Seat,
    command: &Command,
) -> Result<Did, OutOfMemory>
    requires { IsSetup setup.now }
    ensures answers { (state : AnyState) → let old = On (player_at state seat.old) in Answers (orders_by setup.now command.now old) old result
        (On (player_at state seat.new)) }
    ensures idle { (nat_lt seat.old.done setup.now.turns && nat_lt seat.old.orders 64) ≡ false → IsOk result }
    ensures known { seat.new.known ≡ seat.old.known }
{
    if !may_order(setup, seat) {
        return Ok(Did::Idle);
    }
    let turn = seat.done + 1;
    let command = command.copy()?;
    let up = one(alloc, Up::Command { turn, command })?;
    seat.orders += 1;
    Ok(Did::Done { up })
}

// Whether the next turn is one of the match, and known to be released.
fn may_play(setup: &Setup, state: &State, seat: &Seat) -> bool
    ensures { result ≡ may_play_by setup.now (player_at state.now seat.now) }
{
    state.turn < setup.turns && state.turn < seat.released
}

// Plays the next turn with the commands that are known of it.
fn play_next(
    alloc: Global,
    setup: &Setup,
    orders: &OrderTable,
    board: &mut Board<'_>,
    seat: &mut Seat,
) -> Result<(), OutOfMemory>
    requires playing { IsPlaying setup.now board.old seat.old ⟦<dyn System as System>⟧ }
    requires below { (state_in board.old).turn < setup.now.turns }
    ensures played { OnOk result (player_at (state_in board.new) seat.new ≡ played setup.now (player_at (state_in board.old) seat.old)) }
    ensures playing { OnOk result (IsPlaying setup.now board.new seat.new ⟦<dyn System as System>⟧) }
    ensures kept { AreKept (systems board.old ⟦<dyn System as System>⟧) (systems board.new ⟦<dyn System as System>⟧) }
{
    let next = board.scene().state.turn + 1;
    let commands = seat.known.take(next);
    turn(alloc, board, orders, commands.as_slice())?;
    Ok(())
}

// Whether it may be done with one turn more at this turn.
fn may_tell_done(setup: &Setup, turn: u32, done: u32) -> bool
    requires { turn + setup.now.delay < 2 ^ 32 }
    ensures { result ≡ nat_lt done (min setup.now.turns (turn + setup.now.delay)) }
{
    done < setup.turns && done < turn + u32::from(setup.delay)
}

// Tells the turn of a state, and that it is done with one turn more, where it may.
fn tell(
    alloc: Global,
    setup: &Setup,
    state: &State,
    seat: &mut Seat,
    mark: [u8; 16],
) -> Result<Ups, OutOfMemory>
    requires mark { mark ≡ mark_in setup.now state.now }
    requires small { state.now.turn + setup.now.delay < 2 ^ 32 }
    ensures says { IfOk result (λ ups. ups ≡ (told setup.now (player_at state.now seat.old)).says) }
    ensures life { OnOk result (On (player_at state.now seat.new) ≡ (told setup.now (player_at state.now seat.old)).life) }
    ensures known { seat.new.known ≡ seat.old.known }
{
    let mut ups = one(
        alloc,
        Up::Report {
            turn: state.turn,
            digest: mark,
        },
    )?;
    if may_tell_done(setup, state.turn, seat.done) {
        seat.done += 1;
        seat.orders = 0;
        ups.push(Up::Done { turn: seat.done })?;
    }
    Ok(ups)
}

/// Plays the next turn and tells it, where it may.
pub fn play(
    alloc: Global,
    setup: &Setup,
    orders: &OrderTable,
    board: &mut Board<'_>,
    seat: &mut Seat,
) -> Result<Did, OutOfMemory>
    requires playing { IsPlaying setup.now board.old seat.old ⟦<dyn System as System>⟧ }
    ensures { Plays ⟦<dyn System as System>⟧ setup.now result board.old seat.old board.new seat.new }
{
    if !may_play(setup, board.scene().state, seat) {
        return Ok(Did::Idle);
    }
    play_next(alloc, setup, orders, board, seat)?;
    let state = board.scene().state;
    let up = tell(alloc, setup, state, seat, mark(setup, state))?;
    Ok(Did::Done { up })
}

/// The same, with the digest of the state that it comes to. Both digests are taken from those that are kept, where the state is
/// one of theirs.
pub fn play_beside(
    alloc: Global,
    setup: &Setup,
    orders: &OrderTable,
    board: &mut Board<'_>,
    seat: &mut Seat,
    digests: &mut Digests,
) -> Result<Played, OutOfMemory>
    requires playing { IsPlaying setup.now board.old seat.old ⟦<dyn System as System>⟧ }
    ensures plays { Plays ⟦<dyn System as System>⟧ setup.now (did_in result) board.old seat.old board.new seat.new }
    ensures digest { IfOk result (λ played. HasDigest setup.now (On (player_at (state_in board.new) seat.new)) played.did played.digest) }
{
    if !may_play(setup, board.scene().state, seat) {
        return Ok(Played {
            did: Did::Idle,
            digest: None,
        });
    }
    play_next(alloc, setup, orders, board, seat)?;
    let state = board.scene().state;
    let both = digests.of(setup, state);
    let up = tell(alloc, setup, state, seat, both.mark(state.turn))?;
    Ok(Played {
        did: Did::Done { up },
        digest: Some(both.whole),
    })
}

// Hands its state on for another.
fn hand_on(alloc: Global, setup: &Setup, state: &State, client: u8) -> Result<Ups, OutOfMemory>
    requires { IsValid setup.now state.now }
    ensures { IfOk result (λ ups. ups ≡ up.State client state.now.turn (spelling setup.now state.now) ∷ []) }
{
    let bytes = Items::from_items(spell(alloc, setup, state)?);
    one(
        alloc,
        Up::State {
            client,
            turn: state.turn,
            bytes,
        },
    )
}

// Clients have the numbers of players.
fn is_client(setup: &Setup, number: u8) -> bool
    ensures { result ≡ is_client_by setup.now number }
{
    0 < number && number <= setup.players
}

// Whether a command may be known: its turn is to come, and a player of the match gave it.
fn may_learn(setup: &Setup, now: u32, turn: u32, player: u8) -> bool
    ensures { result ≡ (nat_lt now turn && is_client_by setup.now player) }
{
    now < turn && is_client(setup, player)
}

/// Hears what the server says. A command of a player of the match is known from now on, where its turn was not played.
pub fn heed(
    alloc: Global,
    setup: &Setup,
    state: &State,
    seat: &mut Seat,
    down: Down,
) -> Result<Did, OutOfMemory>
    requires valid { IsValid setup.now state.now }
    requires players { AreByPlayers setup.now seat.old.known }
    ensures answers { (loaded : Option AnyState) → let old = On (player_at state.now seat.old) in Answers (hears setup.now loaded down old) old result
        (On (player_at state.now seat.new)) }
    ensures idle { hears setup.now None down (On (player_at state.now seat.old)) ≡ None → IsOk result }
    ensures sure { NeedsNoMemory (On (player_at state.now seat.old)) down → IsOk result }
    ensures players { OnOk result (AreByPlayers setup.now seat.new.known) }
{
    match down {
        Down::Ask { client } => Ok(Did::Done {
            up: hand_on(alloc, setup, state, client)?,
        }),
        Down::Command { turn, order } if may_learn(setup, state.turn, turn, order.player) => {
            seat.known.learn(turn, order)?;
            Ok(silent(alloc))
        }
        Down::Release { turn } if seat.released < turn => {
            seat.released = turn;
            Ok(silent(alloc))
        }
        Down::Command { .. } => Ok(Did::Idle),
        Down::Release { .. } => Ok(Did::Idle),
        Down::State { .. } => Ok(Did::Idle),
        Down::Notice { .. } => Ok(Did::Idle),
        Down::Refused { .. } => Ok(Did::Idle),
    }
}
