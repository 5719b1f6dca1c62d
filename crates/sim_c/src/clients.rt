//! A client that a handle holds. Each clause is that of the call of `sim_held` of the same name.

ghost use Rattle.sim_c.specs.{Clients.{LetsGo, standing_of}, Gives.{Answers, Comes, GivesPlayed, IsClient, OfClient, Opens, put_in, room_status, went_status}};
ghost use Rattle.{sim_embed.specs.{Bytes.OfMatch, Causes.IsNoMatch}, sim_held.specs.Clients.{HearsFrame, IsCutOff, IsNew, Joins, life, Orders, Plays}};
ghost use Rattle.std.specs.Prelude.{IfErr, IfOk, length, not, option_map, pos, ◌==◌, ◌≡◌};

use crate::Fault;
use crate::giving::fill;
use crate::giving_held::{give_played, give_went};
use crate::handle::Handle;
use crate::holding::{open, with_held};
use crate::standing::Standing;
use crate::status::{BAD_HANDLE, DONE, FRAME_REFUSED, LIST_REFUSED};
use sim_embed::Refused;
use sim_held::{Held, HeldClient};
use std::alloc::Global;

/// Opens a client of a match for one of its players.
#[unsafe(no_mangle)]
pub extern "C" fn simcore_client_open(
    alloc: Global,
    handle: &mut Handle,
    game: &[u8],
    player: u32,
    begins: u32,
    fault: &mut Fault,
) -> i32
    ensures { Answers (λ made. OfMatch game.now (λ setup. IsClient (IsNew setup player (not (begins == 0))) made)) (IsNoMatch game.now)
        (Opens handle.old.held handle.new.held result fault.old fault.new) }
{
    let made = new_client(alloc, game, player, begins != 0);
    open(alloc, handle, made, fault)
}

fn new_client(
    alloc: Global,
    game: &[u8],
    player: u32,
    begins: bool,
) -> Result<Option<Box<Held>>, Refused>
    ensures is { IfOk result (λ made. OfMatch game.now (λ setup. IsClient (IsNew setup player begins) (option_map (λ held. held.value) made))) }
    ensures refused { IfErr result (IsNoMatch game.now) }
{
    match HeldClient::new(alloc, game, player, begins)? {
        None => Ok(None),
        Some(client) => Ok(Some(Box::new(alloc, Held::Client(client))?)),
    }
}

/// Wishes to join.
#[unsafe(no_mangle)]
pub extern "C" fn simcore_client_join(alloc: Global, handle: &mut Handle) -> i32
    ensures { OfClient (λ old new. Comes (λ answer. Joins old answer new) (λ answer. result ≡ went_status (pos 8) answer)) (result ≡ pos 101)
        handle.old.held handle.new.held }
{
    with_held!(alloc, handle; Held::Client(client) => give_went(client.join(), LIST_REFUSED))
}

/// Gives a command.
#[unsafe(no_mangle)]
pub extern "C" fn simcore_client_order(alloc: Global, handle: &mut Handle, command: &[u8]) -> i32
    ensures { OfClient (λ old new. Comes (λ answer. Orders command.now old answer new) (λ answer. result ≡ went_status (pos 8) answer)) (result ≡ pos 101)
        handle.old.held handle.new.held }
{
    with_held!(alloc, handle; Held::Client(client) => give_went(client.order(command), LIST_REFUSED))
}

/// Hears a frame of the server.
#[unsafe(no_mangle)]
pub extern "C" fn simcore_client_hear(alloc: Global, handle: &mut Handle, frame: &[u8]) -> i32
    ensures { OfClient (λ old new. Comes (λ answer. HearsFrame frame.now old answer new) (λ answer. result ≡ went_status (pos 103) answer)) (result ≡ pos 101)
        handle.old.held handle.new.held }
{
    with_held!(alloc, handle; Held::Client(client) => hear(client, frame))
}

fn hear(client: &mut HeldClient, frame: &[u8]) -> i32
    ensures { Comes (λ answer. HearsFrame frame.now client.old answer client.new) (λ answer. result ≡ went_status (pos 103) answer) }
{
    give_went(client.hear(frame), FRAME_REFUSED)
}

/// Plays the turns that are released, at most so many.
#[unsafe(no_mangle)]
pub extern "C" fn simcore_client_play(
    alloc: Global,
    handle: &mut Handle,
    most: u32,
    played: &mut u32,
) -> i32
    ensures { OfClient (λ old new. Comes (λ answer. Plays most old answer new) (GivesPlayed result played.old played.new))
        ((result ≡ pos 101) × (played.new ≡ played.old)) handle.old.held handle.new.held }
{
    with_held!(alloc, handle; Held::Client(client) => give_played(client.play(most), played))
}

/// Is cut off.
#[unsafe(no_mangle)]
pub extern "C" fn simcore_client_cut(alloc: Global, handle: &mut Handle) -> i32
    ensures { OfClient (λ old new. IsCutOff old new × (result ≡ pos 0)) (result ≡ pos 101) handle.old.held handle.new.held }
{
    with_held!(alloc, handle; Held::Client(client) => cut(client))
}

fn cut(client: &mut HeldClient) -> i32
    ensures cut { IsCutOff client.old client.new }
    ensures status { result ≡ pos 0 }
{
    client.cut();
    DONE
}

/// Takes the frames that wait to be sent.
#[unsafe(no_mangle)]
pub extern "C" fn simcore_client_take(
    alloc: Global,
    handle: &mut Handle,
    room: &mut [u8],
    written: &mut u64,
) -> i32
    ensures { OfClient (λ old new. LetsGo room.old old new × (result ≡ room_status old.outbox room.old) × (room.new ≡ put_in old.outbox room.old)
        × (written.new ≡ length old.outbox)) ((result ≡ pos 101) × (room.new ≡ room.old) × (written.new ≡ written.old)) handle.old.held handle.new.held }
{
    with_held!(alloc, handle; Held::Client(client) => take(client, room, written))
}

// Takes them where they have room.
fn take(client: &mut HeldClient, room: &mut [u8], written: &mut u64) -> i32
    ensures goes { LetsGo room.old client.old client.new }
    ensures status { result ≡ room_status client.old.outbox room.old }
    ensures room { room.new ≡ put_in client.old.outbox room.old }
    ensures written { written.new ≡ length client.old.outbox }
{
    let status = fill(client.said(), room, written);
    if status == DONE {
        drop(client.take());
    }
    status
}

/// Where a client stands.
#[unsafe(no_mangle)]
pub extern "C" fn simcore_client_standing(
    alloc: Global,
    handle: &mut Handle,
    standing: &mut Standing,
) -> i32
    ensures { OfClient (λ old new. (new ≡ old) × (standing.new ≡ standing_of (life old)) × (result ≡ pos 0))
        ((result ≡ pos 101) × (standing.new ≡ standing.old)) handle.old.held handle.new.held }
{
    with_held!(alloc, handle; Held::Client(client) => stand(client, standing))
}

fn stand(client: &HeldClient, standing: &mut Standing) -> i32
    ensures standing { standing.new ≡ standing_of (life client.now) }
    ensures status { result ≡ pos 0 }
{
    *standing = Standing::of(client);
    DONE
}
