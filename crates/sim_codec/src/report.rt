//! What a report of a state carries: the whole digest at some turns, and at the others a quick one, of the clock and the
//! places alone.

ghost use Rattle.sim_codec.specs.{Common.{HasShortWay, is_full_turn as is_full, mark as mark_of, quick as quick_of, quick_bytes, Tells}, Told.CanBeTold};
ghost use Rattle.std.specs.Prelude.{All, length, OnOk, ◌<◌, ◌^◌, ◌≡◌};

use crate::spelling::{digest, tell_clock};
use sim_base::{Setup, State};
use sim_bytes::{ByteSink, Digesting, PositionRow, tell_section};

/// At turns that are multiples of this number a report carries the whole digest.
pub const FULL_EACH: u32 = 20;

/// Whether reports of a turn carry the whole digest.
pub fn is_full_turn(turn: u32) -> bool
    ensures { result ≡ is_full turn }
{
    turn % FULL_EACH == 0
}

fn tell_quick<K: ByteSink>(out: &mut K, state: &State) -> Result<(), K::Fault>
    requires { CanBeTold state.now.rows }
    ensures { OnOk result (Tells K.holds out.old out.new (quick_bytes state.now)) }
{
    tell_clock(out, state.turn, state.next, state.word)?;
    tell_section::<K, PositionRow>(out, state.rows.as_slice())
}

/// MD5 of the turn, the next id, the word and the section of places. A valid state meets both conditions. It takes no
/// memory.
pub fn quick(_: &Setup, state: &State) -> [u8; 16]
    requires short { All HasShortWay state.now.rows }
    requires few { length state.now.rows < 2 ^ 32 }
    ensures { result ≡ quick_of state.now }
{
    let mut digesting = Digesting::new();
    match tell_quick(&mut digesting, state) {
        Ok(()) => digesting.finalize(),
        Err(never) => match never {},
    }
}

/// What a report of the state carries: the digest at turns that are multiples of 20, and else the quick digest. A valid
/// state meets both conditions. It takes no memory.
pub fn mark(setup: &Setup, state: &State) -> [u8; 16]
    requires short { All HasShortWay state.now.rows }
    requires few { length state.now.rows < 2 ^ 32 }
    ensures { result ≡ mark_of setup.now state.now }
{
    if is_full_turn(state.turn) {
        digest(setup, state)
    } else {
        quick(setup, state)
    }
}
