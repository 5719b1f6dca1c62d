//! The passes over a match file, one after another in the order of their codes, so that the first code that applies is
//! the answer.

ghost use Rattle.std.specs.Prelude.{[], All, false, IfOk, IfSome, length, ◌≡◌, ◌≢◌, ◌≤◌};
ghost use Rattle.sim_setup.specs.Setups.{limits_in as limits_in_data, Meets, misplaced as misplaced_in, session_setup_of as session_setup_of_bytes};
ghost use Rattle.sim_setup.specs.Setups.{setup_in as setup_in_data, setup_of as setup_of_bytes, setup_with as setup_with_parts, without_commands};
ghost use Rattle.sim_setup.specs.{Common.IsSetup, Common.IsTemplate, Common.is_utf8, Common.origins_of, Common.view, Refusals.IsReadySource};

use crate::fault::SetupFault;
use crate::ground::land_in;
use crate::reading::{Lists, Reading, players_of};
use crate::rules::{Rules, rules_in};
use crate::shape::misplaced;
use crate::sources::sources_in;
use md5::{Digest, Md5};
use serde_json::Value;
use sim_base::{Global, Land, Setup};
use sim_json::value_of;
use sim_tree::Source;

/// The setup of the bytes of a match file, or the first code that refuses them, with the least index at which it
/// applies.
pub fn setup_of(alloc: Global, bytes: &[u8]) -> Result<Setup, SetupFault>
    ensures answers { Meets result (setup_of_bytes bytes.now) }
    ensures limits { IfOk result IsSetup }
    ensures no_text { is_utf8 bytes.now ≡ false → result ≡ Err (SetupFault.Refused 1 0) }
{
    let Some(value) = value_of(alloc, bytes)? else {
        return Err(SetupFault::Refused { code: 1, index: 0 });
    };
    setup_in(alloc, Md5::digest(bytes), &value)
}

/// The setup of the bytes of a match file for a session, whose commands come from its clients: one that has commands of
/// its own is refused by code 11.
pub fn session_setup_of(alloc: Global, bytes: &[u8]) -> Result<Setup, SetupFault>
    ensures answers { Meets result (session_setup_of_bytes bytes.now) }
    ensures limits { IfOk result IsSetup }
    ensures none { IfOk result (λ setup. setup.commands ≡ []) }
    ensures no_text { is_utf8 bytes.now ≡ false → result ≡ Err (SetupFault.Refused 1 0) }
{
    for_session(setup_of(alloc, bytes)?)
}

// Code 11, for which no memory is taken.
fn for_session(setup: Setup) -> Result<Setup, SetupFault>
    ensures answers { Meets result (without_commands setup) }
    ensures memory { result ≢ Err SetupFault.OutOfMemory }
    ensures same { IfOk result (λ kept. kept ≡ setup) }
    ensures none { IfOk result (λ kept. kept.commands ≡ []) }
{
    if setup.commands.as_slice().is_empty() {
        Ok(setup)
    } else {
        Err(SetupFault::Refused { code: 11, index: 0 })
    }
}

fn setup_in(alloc: Global, id: [u8; 16], value: &Value) -> Result<Setup, SetupFault>
    ensures value { Meets result (setup_in_data id (view value.now)) }
    ensures shape { IfSome (misplaced_in (view value.now)) (λ index. result ≡ Err (SetupFault.Refused 2 index)) }
    ensures templates { IfOk result (λ setup. All (IsTemplate (length setup.templates)) setup.templates) }
{
    if let Some(index) = misplaced(value) {
        return Err(SetupFault::Refused { code: 2, index });
    }
    let sources = sources_in(alloc, value)?;
    limits_in(alloc, id, sources.as_slice(), value)
}

fn limits_in(
    alloc: Global,
    id: [u8; 16],
    sources: &[Source<'_>],
    value: &Value,
) -> Result<Setup, SetupFault>
    requires { All IsReadySource sources.now }
    ensures value { Meets result (limits_in_data id (origins_of sources.now) (view value.now)) }
    ensures templates { IfOk result (λ setup. All (IsTemplate (length setup.templates)) setup.templates) }
{
    let land = land_in(alloc, value)?;
    let rules = rules_in(value)?;
    let reading = Reading {
        land: &land,
        rules,
        value,
    };
    let lists = reading.lists(alloc, sources)?;
    Ok(setup_with(id, land, rules, lists))
}

fn setup_with(id: [u8; 16], land: Land, rules: Rules, lists: Lists) -> Setup
    requires { length land.masks ≤ 9 }
    ensures { result ≡ setup_with_parts id land rules lists }
{
    let players = players_of(&land);
    Setup {
        id,
        land,
        players,
        cap: rules.cap,
        delay: rules.delay,
        turns: rules.turns,
        seed: rules.seed,
        templates: lists.templates,
        first: lists.first,
        commands: lists.commands,
    }
}
