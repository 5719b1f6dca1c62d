//! Calls that keep nothing: bytes come in, and bytes, numbers and a status go out. Each clause is that of the library's call of the same
//! name, and how its answer is put where C wants it.

ghost use Rattle.sim_c.specs.Gives.{Answers, GivesItems, GivesPlace, GivesStored, GivesValue, outs, stamp};
ghost use Rattle.sim_embed.specs.{Bytes.{OfMatch, OfState, OfStates}, Causes.{AreNoStatesOf, IsNoMatch, IsNoStateOf, IsNoTurn}};
ghost use Rattle.{sim_embed.specs.Facts.{entity_of, facts_of, IsDifference, IsStamp, StoresFirst, StoresTurn}, sim_report.specs.Show.show_text};
ghost use Rattle.std.specs.Prelude.{map, ◌≡◌};

use crate::Fault;
use crate::giving::{give_entities, give_facts, give_place, give_stamp, give_stored, give_text};
use sim_embed::{Entity, Facts};
use std::alloc::Global;

/// The version of the interface: the number before the point times 65536, and the number behind it.
#[unsafe(no_mangle)]
pub extern "C" fn simcore_version() -> u32
    ensures { result ≡ 65538 }
{
    0x0001_0002
}

/// The numbers of a match.
#[unsafe(no_mangle)]
pub extern "C" fn simcore_match(
    alloc: Global,
    game: &[u8],
    facts: &mut Facts,
    fault: &mut Fault,
) -> i32
    ensures { Answers (λ about. OfMatch game.now (λ setup. about ≡ facts_of setup)) (IsNoMatch game.now)
        (GivesValue result facts.old facts.new fault.old fault.new) }
{
    let answer = sim_embed::about(alloc, game);
    give_facts(answer, facts, fault)
}

/// The first state of a match.
#[unsafe(no_mangle)]
pub extern "C" fn simcore_first(
    alloc: Global,
    game: &[u8],
    state: &mut [u8],
    written: &mut u64,
    digest: &mut [u8; 16],
    fault: &mut Fault,
) -> i32
    ensures { Answers (StoresFirst game.now) (IsNoMatch game.now) (GivesStored result
        (outs state.old written.old digest.old fault.old) (outs state.new written.new digest.new fault.new)) }
{
    let answer = sim_embed::first(alloc, game);
    give_stored(answer, state, written, digest, fault)
}

/// The state behind a turn with these commands.
#[unsafe(no_mangle)]
pub extern "C" fn simcore_turn(
    alloc: Global,
    game: &[u8],
    old: &[u8],
    commands: &[u8],
    state: &mut [u8],
    written: &mut u64,
    digest: &mut [u8; 16],
    fault: &mut Fault,
) -> i32
    ensures { Answers (StoresTurn game.now old.now commands.now) (IsNoTurn game.now old.now commands.now) (GivesStored result
        (outs state.old written.old digest.old fault.old) (outs state.new written.new digest.new fault.new)) }
{
    let answer = sim_embed::turn(alloc, game, old, commands);
    give_stored(answer, state, written, digest, fault)
}

/// The digest of a stored state, and its turn.
#[unsafe(no_mangle)]
pub extern "C" fn simcore_digest(
    alloc: Global,
    game: &[u8],
    state: &[u8],
    digest: &mut [u8; 16],
    turn: &mut u32,
    fault: &mut Fault,
) -> i32
    ensures { Answers (λ told. OfState game.now state.now (λ setup at. IsStamp setup at told)) (IsNoStateOf game.now state.now)
        (GivesValue result (stamp digest.old turn.old) (stamp digest.new turn.new) fault.old fault.new) }
{
    let answer = sim_embed::digest(alloc, game, state);
    give_stamp(answer, digest, turn, fault)
}

/// Where two stored states differ first: the entity, and the number of the part.
#[unsafe(no_mangle)]
pub extern "C" fn simcore_compare(
    alloc: Global,
    game: &[u8],
    left: &[u8],
    right: &[u8],
    entity: &mut u32,
    part: &mut u32,
    fault: &mut Fault,
) -> i32
    ensures { Answers (λ place. OfStates game.now left.now right.now (IsDifference place)) (AreNoStatesOf game.now left.now right.now)
        (GivesPlace result entity.old entity.new part.old part.new fault.old fault.new) }
{
    let answer = sim_embed::compare(alloc, game, left, right);
    give_place(answer, entity, part, fault)
}

/// The text of a stored state, a line for each entity.
#[unsafe(no_mangle)]
pub extern "C" fn simcore_show(
    alloc: Global,
    game: &[u8],
    state: &[u8],
    text: &mut [u8],
    written: &mut u64,
    fault: &mut Fault,
) -> i32
    ensures { Answers (λ shown. OfState game.now state.now (λ setup at. shown ≡ show_text setup at)) (IsNoStateOf game.now state.now)
        (GivesItems result text.old text.new written.old written.new fault.old fault.new) }
{
    let answer = sim_embed::show(alloc, game, state);
    give_text(answer, text, written, fault)
}

/// The entities of a stored state.
#[unsafe(no_mangle)]
pub extern "C" fn simcore_entities(
    alloc: Global,
    game: &[u8],
    state: &[u8],
    rows: &mut [Entity],
    written: &mut u64,
    fault: &mut Fault,
) -> i32
    ensures { Answers (λ found. OfState game.now state.now (λ setup at. found ≡ map entity_of at.rows)) (IsNoStateOf game.now state.now)
        (GivesItems result rows.old rows.new written.old written.new fault.old fault.new) }
{
    let answer = sim_embed::entities(alloc, game, state);
    give_entities(answer, rows, written, fault)
}
