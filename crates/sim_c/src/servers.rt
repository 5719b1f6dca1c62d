//! A turn server that a handle holds. Each clause is that of the call of `sim_held` of the same name.

ghost use Rattle.sim_c.specs.Gives.{Answers as IsAnswered, Comes, IsServer, OfServer, Opens, went_status};
ghost use Rattle.{sim_c.specs.Servers.{count_of as count_by, number_of as number_by, Sends, SendsNothing}, sim_embed.specs.{Bytes.OfMatch, Causes.IsNoMatch}};
ghost use Rattle.{sim_held.specs.Servers.{HasLost, HearsFrame, IsServerOf}, sim_server.specs.Standing.server_of};
ghost use Rattle.std.specs.Prelude.{IfErr, IfOk, option_map, pos, ◌≡◌, ◌⊎◌};

use crate::Fault;
use crate::giving::fill;
use crate::giving_held::give_went;
use crate::handle::Handle;
use crate::holding::{open, with_held};
use crate::status::{BAD_HANDLE, DONE, FRAME_REFUSED, NO_MEMORY};
use sim_embed::Refused;
use sim_held::{Held, HeldServer};
use std::alloc::Global;

// A client's number as the server has it: 0, which is nobody's, for those above 255.
fn number_of(client: u32) -> u8
    ensures { result ≡ number_by client }
{
    if client < 256 { client as u8 } else { 0 }
}

// A number of players as the server has it: none has more than 255.
fn count_of(players: u32) -> u8
    ensures { result ≡ count_by players }
{
    if players < 256 { players as u8 } else { 255 }
}

/// Opens a server of a match, in which so many begin.
#[unsafe(no_mangle)]
pub extern "C" fn simcore_server_open(
    alloc: Global,
    handle: &mut Handle,
    game: &[u8],
    active: u32,
    fault: &mut Fault,
) -> i32
    ensures { IsAnswered (λ made. OfMatch game.now (λ setup. IsServer (IsServerOf setup (count_by active)) made)) (IsNoMatch game.now)
        (Opens handle.old.held handle.new.held result fault.old fault.new) }
{
    let made = new_server(alloc, game, count_of(active));
    open(alloc, handle, made, fault)
}

fn new_server(alloc: Global, game: &[u8], active: u8) -> Result<Option<Box<Held>>, Refused>
    ensures is { IfOk result (λ made. OfMatch game.now (λ setup. IsServer (IsServerOf setup active) (option_map (λ held. held.value) made))) }
    ensures refused { IfErr result (IsNoMatch game.now) }
{
    match HeldServer::new(alloc, game, active)? {
        None => Ok(None),
        Some(server) => Ok(Some(Box::new(alloc, Held::Server(server))?)),
    }
}

/// Hears a frame of a client.
#[unsafe(no_mangle)]
pub extern "C" fn simcore_server_hear(
    alloc: Global,
    handle: &mut Handle,
    from: u32,
    frame: &[u8],
) -> i32
    ensures { OfServer (λ old new. Comes (λ answer. HearsFrame (number_by from) frame.now old answer new) (λ answer. result ≡ went_status (pos 103) answer))
        (result ≡ pos 101) handle.old.held handle.new.held }
{
    with_held!(alloc, handle; Held::Server(server) => hear(server, number_of(from), frame))
}

fn hear(server: &mut HeldServer, from: u8, frame: &[u8]) -> i32
    ensures { Comes (λ answer. HearsFrame from frame.now server.old answer server.new) (λ answer. result ≡ went_status (pos 103) answer) }
{
    give_went(server.hear(from, frame), FRAME_REFUSED)
}

/// Sees that the connection of a client has ended.
#[unsafe(no_mangle)]
pub extern "C" fn simcore_server_cut(alloc: Global, handle: &mut Handle, client: u32) -> i32
    ensures { let number = number_by client in OfServer (λ old new.
        Comes (λ answer. HasLost number old answer new) (λ answer. result ≡ went_status (pos 103) answer))
        (result ≡ pos 101) handle.old.held handle.new.held }
{
    with_held!(alloc, handle; Held::Server(server) => give_went(server.cut(number_of(client)), FRAME_REFUSED))
}

/// Takes the frames that wait for a client.
#[unsafe(no_mangle)]
pub extern "C" fn simcore_server_take(
    alloc: Global,
    handle: &mut Handle,
    client: u32,
    room: &mut [u8],
    written: &mut u64,
) -> i32
    ensures { let number = number_by client in OfServer (λ old new. Sends number result room.old room.new written.new old new
        ⊎ SendsNothing number result room.old room.new written.old written.new old new)
        ((result ≡ pos 101) × (room.new ≡ room.old) × (written.new ≡ written.old)) handle.old.held handle.new.held }
{
    with_held!(alloc, handle; Held::Server(server) => take(server, number_of(client), room, written))
}

fn take(server: &mut HeldServer, client: u8, room: &mut [u8], written: &mut u64) -> i32
    ensures { Sends client result room.old room.new written.new server.old server.new
        ⊎ SendsNothing client result room.old room.new written.old written.new server.old server.new }
{
    let Ok(bytes) = server.said(client) else {
        return NO_MEMORY;
    };
    let status = fill(&bytes, room, written);
    if status == DONE {
        server.sent(client);
    }
    status
}

/// The turns that are released.
#[unsafe(no_mangle)]
pub extern "C" fn simcore_server_released(alloc: Global, handle: &mut Handle, turn: &mut u32) -> i32
    ensures { OfServer (λ old new. (new ≡ old) × (turn.new ≡ (server_of old.server).released) × (result ≡ pos 0))
        ((result ≡ pos 101) × (turn.new ≡ turn.old)) handle.old.held handle.new.held }
{
    with_held!(alloc, handle; Held::Server(server) => released(server, turn))
}

fn released(server: &HeldServer, turn: &mut u32) -> i32
    ensures turn { turn.new ≡ (server_of server.now.server).released }
    ensures status { result ≡ pos 0 }
{
    *turn = server.released();
    DONE
}
