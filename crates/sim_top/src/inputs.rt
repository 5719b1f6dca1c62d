//! What a command reads: the match of a file, a stored state of that match, explored cells, an economy, a log, a schedule, and the match and the
//! steps of a session; and the match of a trial. What is refused without a look at its contents takes no memory.

ghost use Rattle.std.specs.Prelude.{IfSome, IsErrAnd, List, None, Ok, Some, ◌≡◌};
ghost use Rattle.sim_top.specs.Common.{economy_of as economy_of_bytes, File, file_in, IsEconomy, IsLog, IsSetup, IsStepList, IsTrial, IsValid, refusal_of};
ghost use Rattle.sim_top.specs.Common.{schedule_of as schedule_of_bytes, session_setup_of as session_setup_of_bytes, setup_of as setup_of_bytes};
ghost use Rattle.sim_top.specs.Outcome.{bytes_in, economy_by, economy_in, list_by, map_at, map_by, match_in, schedule_in, session_match_in, setup_by, steps_in};
ghost use Rattle.sim_top.specs.Stops.{IsMissed, IsOfEconomy, IsOfList, IsOfLog, IsOfMap, IsOfMatch, IsOfState, IsStateStop, Joins, LoadsState, Reads};
ghost use Rattle.sim_top.specs.{Commands.HasParsed, Commands.HasRead, Commands.MayJoin, Commands.shelved, Stops.ReadsBytes, Stops.ReadsLog, Stops.ReadsState};
ghost use Rattle.sim_top.specs.{Common.steps_of as steps_of_bytes, Outcome.trial_match as match_of_trial, Stops.ReadsCounting};
ghost use Rattle.{sim_codec.specs.Loading.head_fault, sim_lists.specs.StepLists.IsSchedule, sim_top.specs.Commands.HasParsedText};

use crate::stop::Stop;
use sim_base::{Global, Setup, State};
use sim_codec::load;
use sim_lists::{Schedule, StepList, schedule_of, steps_of};
use sim_replay::{Log, log_of};
use sim_setup::{session_setup_of, setup_of};
use sim_stock::{Economy, economy_of};
use sim_store::{Shelf, StoreFault, read_file};
use sim_trial::trial_text;
use sim_vision::Sight;

/// Reads the bytes of a file.
#[tactic(auto, unfolding(crate::specs::Outcome::bytes_in))]
fn read_bytes<'w, S: Shelf>(alloc: Global, shelf: &mut S, name: &str) -> Result<Vec<u8>, Stop<'w>>
    ensures tells { IfSome (S.held shelf.old) (λ files. ReadsBytes result (bytes_in files name.now)) }
    ensures missing { (files : List File) → S.held shelf.old ≡ Some files → file_in files name.now ≡ None → IsMissed result }
    ensures causes { ReadsCounting result (S.counts shelf.old) (S.counts shelf.new) }
    ensures held { S.held shelf.new ≡ S.held shelf.old }
{
    match read_file(alloc, shelf, name) {
        Ok(bytes) => Ok(bytes),
        Err(StoreFault::ReadFault) => Err(Stop::ReadFault),
        Err(StoreFault::TooLong) => Err(Stop::TooLong),
        Err(StoreFault::NoFile) => Err(Stop::NoFile),
        Err(StoreFault::OutOfMemory) => Err(Stop::OutOfMemory),
        Err(StoreFault::WriteFault) => unreachable!(),
    }
}

// The match of the bytes of a file.
fn match_of<'w>(alloc: Global, bytes: &[u8]) -> Result<Setup, Stop<'w>>
    ensures { HasParsedText (setup_by (setup_of_bytes bytes.now)) bytes.now (Stop.MatchRefused 1 0) IsSetup IsOfMatch result }
{
    Ok(setup_of(alloc, bytes)?)
}

/// Reads the match of a file.
#[tactic(auto, unfolding(crate::specs::Outcome::match_in))]
pub fn read_match<'w, S: Shelf>(alloc: Global, shelf: &mut S, name: &str) -> Result<Setup, Stop<'w>>
    ensures tells { IfSome (S.held shelf.old) (λ files. Reads result (match_in files name.now)) }
    ensures read { HasRead result IsSetup IsOfMatch name.now (shelved (S.held shelf.old) (S.counts shelf.old))
        (shelved (S.held shelf.new) (S.counts shelf.new)) }
{
    let bytes = read_bytes(alloc, shelf, name)?;
    match_of(alloc, &bytes)
}

// The match for a session of the bytes of a file.
fn session_match_of<'w>(alloc: Global, bytes: &[u8]) -> Result<Setup, Stop<'w>>
    ensures { HasParsedText (setup_by (session_setup_of_bytes bytes.now)) bytes.now (Stop.MatchRefused 1 0) IsSetup IsOfMatch result }
{
    Ok(session_setup_of(alloc, bytes)?)
}

/// Reads the match of a file for a session: one that has commands of its own is refused.
#[tactic(auto, unfolding(crate::specs::Outcome::session_match_in))]
pub fn read_session_match<'w, S: Shelf>(
    alloc: Global,
    shelf: &mut S,
    name: &str,
) -> Result<Setup, Stop<'w>>
    ensures tells { IfSome (S.held shelf.old) (λ files. Reads result (session_match_in files name.now)) }
    ensures read { HasRead result IsSetup IsOfMatch name.now (shelved (S.held shelf.old) (S.counts shelf.old))
        (shelved (S.held shelf.new) (S.counts shelf.new)) }
{
    let bytes = read_bytes(alloc, shelf, name)?;
    session_match_of(alloc, &bytes)
}

/// The match of a trial, which no file holds.
#[tactic(auto, unfolding(crate::specs::Outcome::trial_match))]
pub fn trial_match<'w>(alloc: Global, seed: u32, units: u32, turns: u32) -> Result<Setup, Stop<'w>>
    requires { IsTrial seed units turns }
    ensures tells { Reads result (match_of_trial seed units turns) }
    ensures parsed { HasParsed result IsSetup IsOfMatch }
{
    let text = trial_text(alloc, u64::from(seed), units, turns)?;
    match_of(alloc, &text)
}

// The state that the bytes of the file of this name stand for. What the first bytes are refused for takes no memory.
fn state_of<'w>(
    alloc: Global,
    setup: &Setup,
    name: &'w str,
    bytes: &[u8],
) -> Result<State, Stop<'w>>
    requires { IsSetup setup.now }
    ensures loads { LoadsState result setup.now name.now bytes.now }
    ensures head { IfSome (head_fault setup.now bytes.now) (λ fault. IsErrAnd result (IsStateStop fault name.now)) }
    ensures parsed { HasParsed result (IsValid setup.now) IsOfState }
{
    match load(alloc, setup, bytes) {
        Ok(state) => Ok(state),
        Err(fault) => Err(Stop::of_state(fault, name)),
    }
}

/// Reads the state of a match that is stored in a file.
pub fn read_state<'w, S: Shelf>(
    alloc: Global,
    shelf: &mut S,
    setup: &Setup,
    name: &'w str,
) -> Result<State, Stop<'w>>
    requires { IsSetup setup.now }
    ensures tells { IfSome (S.held shelf.old) (λ files. ReadsState result setup.now name.now (bytes_in files name.now)) }
    ensures read { HasRead result (IsValid setup.now) IsOfState name.now (shelved (S.held shelf.old) (S.counts shelf.old))
        (shelved (S.held shelf.new) (S.counts shelf.new)) }
{
    let bytes = read_bytes(alloc, shelf, name)?;
    state_of(alloc, setup, name, &bytes)
}

// The sight that joins at a state with the explored cells of these bytes.
fn sight_of<'a, 'w>(
    alloc: Global,
    setup: &'a Setup,
    state: &State,
    bytes: &[u8],
) -> Result<Sight<'a>, Stop<'w>>
    requires { MayJoin setup.now state.now }
    ensures joins { Joins result setup.now state.now (map_by (refusal_of setup.now state.now.rows bytes.now) bytes.now) }
    ensures parsed { HasParsed result (λ sight. sight.setup ≡ setup.now) IsOfMap }
{
    Ok(Sight::join(alloc, setup, state, bytes)?)
}

/// Reads the explored cells of a file, with which a sight joins at a state of the match.
pub fn read_sight<'a, 'w, S: Shelf>(
    alloc: Global,
    shelf: &mut S,
    setup: &'a Setup,
    state: &State,
    name: &str,
) -> Result<Sight<'a>, Stop<'w>>
    requires { MayJoin setup.now state.now }
    ensures tells { IfSome (S.held shelf.old) (λ files. Joins result setup.now state.now (map_at setup.now state.now (bytes_in files name.now))) }
    ensures read { HasRead result (λ sight. sight.setup ≡ setup.now) IsOfMap name.now (shelved (S.held shelf.old) (S.counts shelf.old))
        (shelved (S.held shelf.new) (S.counts shelf.new)) }
{
    let bytes = read_bytes(alloc, shelf, name)?;
    sight_of(alloc, setup, state, &bytes)
}

// The economy of a match that the bytes of a file are.
fn economy_from<'w>(alloc: Global, setup: &Setup, bytes: &[u8]) -> Result<Economy, Stop<'w>>
    ensures { HasParsedText (economy_by (economy_of_bytes setup.now bytes.now)) bytes.now (Stop.EconomyRefused 0) (IsEconomy setup.now) IsOfEconomy result }
{
    Ok(economy_of(alloc, setup, bytes)?)
}

/// Reads the economy of a match from a file.
#[tactic(auto, unfolding(crate::specs::Outcome::economy_in))]
pub fn read_economy<'w, S: Shelf>(
    alloc: Global,
    shelf: &mut S,
    setup: &Setup,
    name: &str,
) -> Result<Economy, Stop<'w>>
    ensures tells { IfSome (S.held shelf.old) (λ files. Reads result (economy_in files name.now setup.now)) }
    ensures read { HasRead result (IsEconomy setup.now) IsOfEconomy name.now (shelved (S.held shelf.old) (S.counts shelf.old))
        (shelved (S.held shelf.new) (S.counts shelf.new)) }
{
    let bytes = read_bytes(alloc, shelf, name)?;
    economy_from(alloc, setup, &bytes)
}

// The log of a match that the bytes of a file are.
fn log_from<'w>(alloc: Global, setup: &Setup, bytes: &[u8]) -> Result<Log, Stop<'w>>
    ensures tells { ReadsLog result setup.now (Ok bytes.now) }
    ensures parsed { HasParsed result (IsLog setup.now) IsOfLog }
{
    Ok(log_of(alloc, setup, bytes)?)
}

/// Reads the log of a match from a file.
pub fn read_log<'w, S: Shelf>(
    alloc: Global,
    shelf: &mut S,
    setup: &Setup,
    name: &str,
) -> Result<Log, Stop<'w>>
    ensures tells { IfSome (S.held shelf.old) (λ files. ReadsLog result setup.now (bytes_in files name.now)) }
    ensures read { HasRead result (IsLog setup.now) IsOfLog name.now (shelved (S.held shelf.old) (S.counts shelf.old))
        (shelved (S.held shelf.new) (S.counts shelf.new)) }
{
    let bytes = read_bytes(alloc, shelf, name)?;
    log_from(alloc, setup, &bytes)
}

// The schedule of the bytes of a file.
fn schedule_from<'w>(alloc: Global, bytes: &[u8]) -> Result<Schedule, Stop<'w>>
    ensures { HasParsedText (list_by (schedule_of_bytes bytes.now)) bytes.now (Stop.ListRefused 0) IsSchedule IsOfList result }
{
    Ok(schedule_of(alloc, bytes)?)
}

/// Reads the schedule of a file.
#[tactic(auto, unfolding(crate::specs::Outcome::schedule_in))]
pub fn read_schedule<'w, S: Shelf>(
    alloc: Global,
    shelf: &mut S,
    name: &str,
) -> Result<Schedule, Stop<'w>>
    ensures tells { IfSome (S.held shelf.old) (λ files. Reads result (schedule_in files name.now)) }
    ensures read { HasRead result IsSchedule IsOfList name.now (shelved (S.held shelf.old) (S.counts shelf.old))
        (shelved (S.held shelf.new) (S.counts shelf.new)) }
{
    let bytes = read_bytes(alloc, shelf, name)?;
    schedule_from(alloc, &bytes)
}

// The list of steps of the bytes of a file, for so many players.
fn steps_from<'w>(alloc: Global, bytes: &[u8], players: u8) -> Result<StepList, Stop<'w>>
    ensures { HasParsedText (list_by (steps_of_bytes players bytes.now)) bytes.now (Stop.ListRefused 0) (IsStepList players) IsOfList result }
{
    Ok(steps_of(alloc, bytes, players)?)
}

/// Reads the list of steps of a file, for a match of so many players.
#[tactic(auto, unfolding(crate::specs::Outcome::steps_in))]
pub fn read_steps<'w, S: Shelf>(
    alloc: Global,
    shelf: &mut S,
    name: &str,
    players: u8,
) -> Result<StepList, Stop<'w>>
    ensures tells { IfSome (S.held shelf.old) (λ files. Reads result (steps_in files name.now players)) }
    ensures read { HasRead result (IsStepList players) IsOfList name.now (shelved (S.held shelf.old) (S.counts shelf.old))
        (shelved (S.held shelf.new) (S.counts shelf.new)) }
{
    let bytes = read_bytes(alloc, shelf, name)?;
    steps_from(alloc, &bytes, players)
}
