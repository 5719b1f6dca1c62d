//! Looks at the state to which a game, or a client that is on, has come. Nothing that is held changes.

ghost use Rattle.sim_c.specs.Gives.{Comes, GivesLook, GivesSheet, GivesStamp, Looks, sheet, stamp, there_is};
ghost use Rattle.{sim_embed.specs.Facts.{entity_of, IsStamp, IsStored}, sim_held.specs.Clients.{LooksAt, LooksAtClient}, sim_report.specs.Show.show_text};
ghost use Rattle.std.specs.Prelude.{IfOk, map, pos, Some, ◌≡◌};

use crate::giving_held::{give_held_stamp, give_items, give_shown, give_state};
use crate::handle::Handle;
use crate::holding::with_held;
use crate::status::BAD_HANDLE;
use sim_base::{Global, OutOfMemory};
use sim_embed::Entity;
use sim_held::{Held, HeldClient, HeldMatch};

// What there is for sure.
fn there<T>(answer: Result<T, OutOfMemory>) -> Result<Option<T>, OutOfMemory>
    ensures { result ≡ there_is answer }
{
    Ok(Some(answer?))
}

/// The bytes of the state, and their digest.
#[unsafe(no_mangle)]
pub extern "C" fn simcore_held_state(
    alloc: Global,
    handle: &mut Handle,
    state: &mut [u8],
    written: &mut u64,
    digest: &mut [u8; 16],
) -> i32
    ensures looks { Looks IsStored (GivesSheet result (sheet state.old written.old digest.old) (sheet state.new written.new digest.new))
        ((result ≡ pos 101) × (sheet state.new written.new digest.new ≡ sheet state.old written.old digest.old)) handle.old.held }
    ensures same { handle.new.held ≡ handle.old.held }
{
    with_held!(
        alloc, handle;
        Held::Client(client) => client_state(client, state, written, digest),
        Held::Match(game) => give_state(there(game.stored()), state, written, digest)
    )
}

fn client_state(
    client: &HeldClient,
    state: &mut [u8],
    written: &mut u64,
    digest: &mut [u8; 16],
) -> i32
    ensures { Comes (LooksAtClient IsStored client.now)
        (GivesSheet result (sheet state.old written.old digest.old) (sheet state.new written.new digest.new)) }
{
    give_state(client.stored(), state, written, digest)
}

/// The digest of the state, and its turn.
#[unsafe(no_mangle)]
pub extern "C" fn simcore_held_digest(
    alloc: Global,
    handle: &mut Handle,
    digest: &mut [u8; 16],
    turn: &mut u32,
) -> i32
    ensures looks { Looks IsStamp (GivesStamp result (stamp digest.old turn.old) (stamp digest.new turn.new))
        ((result ≡ pos 101) × (stamp digest.new turn.new ≡ stamp digest.old turn.old)) handle.old.held }
    ensures same { handle.new.held ≡ handle.old.held }
{
    with_held!(
        alloc, handle;
        Held::Client(client) => client_stamp(client, digest, turn),
        Held::Match(game) => game_stamp(game, digest, turn)
    )
}

fn client_stamp(client: &HeldClient, digest: &mut [u8; 16], turn: &mut u32) -> i32
    ensures { Comes (LooksAtClient IsStamp client.now)
        (GivesStamp result (stamp digest.old turn.old) (stamp digest.new turn.new)) }
{
    give_held_stamp(client.stamp(), digest, turn)
}

fn game_stamp(game: &HeldMatch, digest: &mut [u8; 16], turn: &mut u32) -> i32
    ensures { Comes (λ answer. IfOk answer (LooksAt (Some game.now.state) (IsStamp game.now.setup)))
        (GivesStamp result (stamp digest.old turn.old) (stamp digest.new turn.new)) }
{
    give_held_stamp(Some(game.stamp()), digest, turn)
}

/// The state as text.
#[unsafe(no_mangle)]
pub extern "C" fn simcore_held_show(
    alloc: Global,
    handle: &mut Handle,
    text: &mut [u8],
    written: &mut u64,
) -> i32
    ensures looks { Looks (λ setup state shown. shown ≡ show_text setup state) (GivesLook result text.old text.new written.old written.new)
        ((result ≡ pos 101) × (text.new ≡ text.old) × (written.new ≡ written.old)) handle.old.held }
    ensures same { handle.new.held ≡ handle.old.held }
{
    with_held!(
        alloc, handle;
        Held::Client(client) => client_text(client, text, written),
        Held::Match(game) => give_shown(there(game.show()), text, written)
    )
}

fn client_text(client: &HeldClient, text: &mut [u8], written: &mut u64) -> i32
    ensures { Comes (LooksAtClient (λ setup state shown. shown ≡ show_text setup state) client.now)
        (GivesLook result text.old text.new written.old written.new) }
{
    give_shown(client.show(), text, written)
}

/// The entities of the state.
#[unsafe(no_mangle)]
pub extern "C" fn simcore_held_entities(
    alloc: Global,
    handle: &mut Handle,
    rows: &mut [Entity],
    written: &mut u64,
) -> i32
    ensures looks { Looks (λ setup state found. found ≡ map entity_of state.rows) (GivesLook result rows.old rows.new written.old written.new)
        ((result ≡ pos 101) × (rows.new ≡ rows.old) × (written.new ≡ written.old)) handle.old.held }
    ensures same { handle.new.held ≡ handle.old.held }
{
    with_held!(
        alloc, handle;
        Held::Client(client) => client_entities(client, rows, written),
        Held::Match(game) => give_items(there(game.entities()), rows, written)
    )
}

fn client_entities(client: &HeldClient, rows: &mut [Entity], written: &mut u64) -> i32
    ensures { Comes (LooksAtClient (λ setup state found. found ≡ map entity_of state.rows) client.now)
        (GivesLook result rows.old rows.new written.old written.new) }
{
    give_items(client.entities(), rows, written)
}
