//! A match that a handle holds. Each clause is that of the call of `sim_held` of the same name.

ghost use Rattle.{sim_base.specs.Turn.first_state, sim_c.specs.Gives.{Answers, Comes, GivesPlayed, GivesValue, IsGame, OfGame, Opens}};
ghost use Rattle.{sim_embed.specs.{Bytes.{OfMatch, OfState}, Causes.{IsNoMatch, IsNoStateOf}}, sim_held.specs.Games.{PlaysGame, PlaysOwnTurns}};
ghost use Rattle.std.specs.Prelude.{IfErr, IfOk, option_map, pos, ◌≡◌};

use crate::Fault;
use crate::giving_held::give_played;
use crate::handle::Handle;
use crate::holding::{open, with_held};
use crate::status::{BAD_HANDLE, DONE, refuse};
use sim_embed::Refused;
use sim_held::{Held, HeldMatch};
use std::alloc::Global;

/// Opens a match at its first state.
#[unsafe(no_mangle)]
pub extern "C" fn simcore_game_open(
    alloc: Global,
    handle: &mut Handle,
    game: &[u8],
    fault: &mut Fault,
) -> i32
    ensures { Answers (λ made. OfMatch game.now (λ setup. IsGame setup (first_state setup) made)) (IsNoMatch game.now)
        (Opens handle.old.held handle.new.held result fault.old fault.new) }
{
    let made = first_game(alloc, game);
    open(alloc, handle, made, fault)
}

fn first_game(alloc: Global, game: &[u8]) -> Result<Option<Box<Held>>, Refused>
    ensures is { IfOk result (λ made. OfMatch game.now (λ setup. IsGame setup (first_state setup) (option_map (λ held. held.value) made))) }
    ensures refused { IfErr result (IsNoMatch game.now) }
{
    let game = HeldMatch::new(alloc, game)?;
    Ok(Some(Box::new(alloc, Held::Match(game))?))
}

/// Opens a match at a stored state.
#[unsafe(no_mangle)]
pub extern "C" fn simcore_game_load(
    alloc: Global,
    handle: &mut Handle,
    game: &[u8],
    state: &[u8],
    fault: &mut Fault,
) -> i32
    ensures { Answers (λ made. OfState game.now state.now (λ setup at. IsGame setup at made))
        (IsNoStateOf game.now state.now) (Opens handle.old.held handle.new.held result fault.old fault.new) }
{
    let made = loaded_game(alloc, game, state);
    open(alloc, handle, made, fault)
}

fn loaded_game(alloc: Global, game: &[u8], state: &[u8]) -> Result<Option<Box<Held>>, Refused>
    ensures is { IfOk result (λ made. OfState game.now state.now (λ setup at. IsGame setup at (option_map (λ held. held.value) made))) }
    ensures refused { IfErr result (IsNoStateOf game.now state.now) }
{
    let game = HeldMatch::load(alloc, game, state)?;
    Ok(Some(Box::new(alloc, Held::Match(game))?))
}

/// Plays a turn with these commands.
#[unsafe(no_mangle)]
pub extern "C" fn simcore_game_play(
    alloc: Global,
    handle: &mut Handle,
    commands: &[u8],
    fault: &mut Fault,
) -> i32
    ensures { OfGame (λ old new. Comes (λ answer. PlaysGame commands.now old answer new) (GivesValue result tt tt fault.old fault.new))
        ((result ≡ pos 101) × (fault.new ≡ fault.old)) handle.old.held handle.new.held }
{
    with_held!(alloc, handle; Held::Match(game) => play(game, commands, fault))
}

fn play(game: &mut HeldMatch, commands: &[u8], fault: &mut Fault) -> i32
    ensures { Comes (λ answer. PlaysGame commands.now game.old answer game.new) (GivesValue result tt tt fault.old fault.new) }
{
    match game.play(commands) {
        Ok(()) => DONE,
        Err(refused) => refuse(&refused, fault),
    }
}

/// Plays the match's own turns, at most so many.
#[unsafe(no_mangle)]
pub extern "C" fn simcore_game_play_own(
    alloc: Global,
    handle: &mut Handle,
    most: u32,
    played: &mut u32,
) -> i32
    ensures { OfGame (λ old new. Comes (λ answer. PlaysOwnTurns most old answer new) (GivesPlayed result played.old played.new))
        ((result ≡ pos 101) × (played.new ≡ played.old)) handle.old.held handle.new.held }
{
    with_held!(alloc, handle; Held::Match(game) => give_played(game.play_own(most), played))
}
