//! Looks at stored states, which change nothing.

ghost use Rattle.std.specs.Prelude.{IfErr, IfOk, string_bytes, ◌≡◌};
ghost use Rattle.sim_embed.specs.{Bytes.OfState, Bytes.OfStates, Causes.AreNoStatesOf, Causes.IsNoStateOf, Facts.IsDifference, Facts.IsStamp};
ghost use Rattle.{sim_base.specs.Limits.IsValid, sim_diff.specs.Difference.number_of, sim_report.specs.Show.show_text as text_of_show};

use crate::reading::{match_of, state_of};
use crate::{Refused, Stamp};
use sim_base::{Global, OutOfMemory, Setup, State};
use sim_codec::Part;
use sim_diff::{Place, difference};
use sim_report::push_show;

/// The digest and the turn of the state that bytes stand for.
pub fn digest(alloc: Global, game: &[u8], bytes: &[u8]) -> Result<Stamp, Refused>
    ensures is { IfOk result (λ stamp. OfState game.now bytes.now (λ setup state. IsStamp setup state stamp)) }
    ensures refused { IfErr result (IsNoStateOf game.now bytes.now) }
{
    let setup = match_of(alloc, game)?;
    let state = state_of(alloc, &setup, bytes, 0)?;
    Ok(Stamp::of(&setup, &state))
}

/// The least place at which two states differ, or None where they are the same.
pub fn compare(
    alloc: Global,
    game: &[u8],
    left: &[u8],
    right: &[u8],
) -> Result<Option<Place>, Refused>
    ensures is { IfOk result (λ place. OfStates game.now left.now right.now (IsDifference place)) }
    ensures refused { IfErr result (AreNoStatesOf game.now left.now right.now) }
{
    let setup = match_of(alloc, game)?;
    let left = state_of(alloc, &setup, left, 0)?;
    let right = state_of(alloc, &setup, right, 1)?;
    Ok(difference(&left, &right))
}

/// The number of a part, in the order in which parts are compared: the clock is 0, and of an entity what it is, its place, its owner,
/// its health, its motion, its attack and its stance are 1 to 7.
pub fn part_number(part: Part) -> u32
    ensures { result ≡ number_of part }
{
    match part {
        Part::Clock => 0,
        Part::Entity => 1,
        Part::Position => 2,
        Part::Owner => 3,
        Part::Health => 4,
        Part::Motion => 5,
        Part::Attack => 6,
        Part::Stance => 7,
    }
}

/// The state as text: a line of its clock, and one of each row.
pub fn show(alloc: Global, game: &[u8], bytes: &[u8]) -> Result<String, Refused>
    ensures is { IfOk result (λ text. OfState game.now bytes.now (λ setup state. string_bytes text ≡ text_of_show setup state)) }
    ensures refused { IfErr result (IsNoStateOf game.now bytes.now) }
{
    let setup = match_of(alloc, game)?;
    let state = state_of(alloc, &setup, bytes, 0)?;
    Ok(text_of(alloc, &setup, &state)?)
}

/// The text of a state of a match: a line of its clock, and one of each row.
pub fn text_of(alloc: Global, setup: &Setup, state: &State) -> Result<String, OutOfMemory>
    requires { IsValid setup.now state.now }
    ensures { IfOk result (λ text. string_bytes text ≡ text_of_show setup.now state.now) }
{
    let mut text = String::new(alloc);
    push_show(setup, state, &mut text)?;
    Ok(text)
}
