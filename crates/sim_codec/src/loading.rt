//! The state that bytes stand for. The reader is lax: what it read is tested as a state, and spelled again and compared,
//! before any memory is taken. So it is enough that it reads back what is spelled.

ghost use Rattle.std.specs.Prelude.{drop, IfErr, IfOk, IfSome, IsOk, IsTrue, MatchResult, None, Some, take, ◌↔◌, ◌≡◌, ◌≢◌};
ghost use Rattle.sim_codec.specs.Common.{IsSetup, IsValid, State};
ghost use Rattle.sim_codec.specs.Loading.{head_fault, Judges, Loads, RefusedFor, spelled_by, Stands, StandsFor, start_bytes, version_of as version_in};

use crate::fault::StateFault;
use crate::good::is_valid_stored;
use crate::reading::state_of;
use crate::same::is_spelled;
use crate::stored::{Stored, stored_from};
use sim_base::{Global, Setup, State};
use sim_bytes::Version;

// The magic "RSIM" and the number of the version.
#[tactic(auto, unfolding(sim_base::specs::Spelling::u32_bytes))]
fn start_of_state(version: Version) -> [u8; 8]
    ensures { result ≡ start_bytes version }
{
    let [a, b, c, d] = version.number().to_le_bytes();
    [82, 83, 73, 77, a, b, c, d]
}

// The version whose magic and number these are.
fn version_of(start: &[u8]) -> Option<Version>
    ensures { result ≡ version_in start.now }
{
    if start == start_of_state(Version::Two).as_slice() {
        return Some(Version::Two);
    }
    if start == start_of_state(Version::One).as_slice() {
        return Some(Version::One);
    }
    None
}

// The version, and what follows the id of the match.
#[tactic(auto, unfolding(crate::specs::Loading::head_fault))]
fn behind_head<'a>(setup: &Setup, bytes: &'a [u8]) -> Result<(Version, &'a [u8]), StateFault>
    ensures { MatchResult result (λ read. (head_fault setup.now bytes.now ≡ None) × (version_in (take 8 bytes.now) ≡ Some read.0)
        × (read.1.now ≡ drop 24 bytes.now)) (λ fault. head_fault setup.now bytes.now ≡ Some fault) }
{
    if bytes.len() < 24 {
        return Err(StateFault::NotState);
    }
    let (start, after) = bytes.split_at(8);
    let version = match version_of(start) {
        None => return Err(StateFault::NotState),
        Some(version) => version,
    };
    let (id, rest) = after.split_at(16);
    if id != setup.id.as_slice() {
        return Err(StateFault::OtherMatch);
    }
    Ok((version, rest))
}

// Whether the state is valid, and the bytes are its spelling by the version.
fn is_good(version: Version, setup: &Setup, stored: &Stored<'_>, bytes: &[u8]) -> bool
    ensures { IsTrue result ↔ (IsValid setup.now stored.now × (bytes.now ≡ spelled_by version setup.now stored.now)) }
{
    is_valid_stored(setup, stored) && is_spelled(version, setup, stored, bytes)
}

// The state for which the bytes stand, still in them.
fn standing<'a>(setup: &'a Setup, bytes: &'a [u8]) -> Result<Stored<'a>, StateFault>
    requires { IsSetup setup.now }
    ensures { Judges setup.now bytes.now result }
{
    let (version, rest) = behind_head(setup, bytes)?;
    let stored = stored_from(version, setup, rest)?;
    if !is_good(version, setup, &stored, bytes) {
        return Err(StateFault::Grammar);
    }
    Ok(stored)
}

/// Whether bytes stand for a state of the match, and else what `load` refuses them for. It takes no memory.
pub fn stands(setup: &Setup, bytes: &[u8]) -> Result<(), StateFault>
    requires { IsSetup setup.now }
    ensures head { IfSome (head_fault setup.now bytes.now) (λ fault. result ≡ Err fault) }
    ensures ok { IfOk result (λ _. Stands setup.now bytes.now) }
    ensures stands { Stands setup.now bytes.now → IsOk result }
    ensures err { IfErr result (RefusedFor setup.now bytes.now) }
    ensures no_memory { result ≢ Err StateFault.OutOfMemory }
{
    match standing(setup, bytes) {
        Ok(_) => Ok(()),
        Err(fault) => Err(fault),
    }
}

/// The one valid state of the match for which the bytes stand, by either version. It need not be one that the match
/// reaches.
///
/// No memory is taken before it is known that the bytes stand for a state.
pub fn load(alloc: Global, setup: &Setup, bytes: &[u8]) -> Result<State, StateFault>
    requires { IsSetup setup.now }
    ensures head { IfSome (head_fault setup.now bytes.now) (λ fault. result ≡ Err fault) }
    ensures ok { IfOk result (StandsFor setup.now bytes.now) }
    ensures loads { (state : State) → StandsFor setup.now bytes.now state → Loads state result }
    ensures err { IfErr result (RefusedFor setup.now bytes.now) }
    ensures memory { result ≡ Err StateFault.OutOfMemory → Stands setup.now bytes.now }
{
    let stored = standing(setup, bytes)?;
    match state_of(alloc, stored) {
        Ok(state) => Ok(state),
        Err(_) => Err(StateFault::OutOfMemory),
    }
}
