//! The spelling of a state. It is told once, piece by piece, into a list, into a digest or into a comparison, so that
//! the three cannot differ.

ghost use Rattle.sim_codec.specs.{Common.{digest as digest_of, HasShortWay, number_of, sections, spelling, Tells, u32_bytes, u64_bytes}, Told.CanBeTold};
ghost use Rattle.std.specs.Prelude.{All, codes, IfOk, length, OnOk, ◌++◌, ◌<◌, ◌^◌, ◌≡◌};

use sim_base::{Global, OutOfMemory, Row, Setup, State};
use sim_bytes::{
    AttackRow, ByteSink, Digesting, EntityRow, HealthRow, MotionRow, OwnerRow, PositionRow,
    StanceRow, Version, tell_section, tell_u32, tell_u64,
};

/// Tells the magic, the version and the id of the match.
pub fn tell_head<K: ByteSink>(out: &mut K, version: Version, setup: &Setup) -> Result<(), K::Fault>
    ensures { OnOk result (Tells K.holds out.old out.new (codes "RSIM" ++ (u32_bytes (number_of version) ++ setup.now.id))) }
{
    out.tell(b"RSIM")?;
    tell_u32(out, version.number())?;
    out.tell(&setup.id)
}

/// Tells the turn, the next id and the word.
pub fn tell_clock<K: ByteSink>(out: &mut K, turn: u32, next: u32, word: u64) -> Result<(), K::Fault>
    ensures { OnOk result (Tells K.holds out.old out.new (u32_bytes turn ++ (u32_bytes next ++ u64_bytes word))) }
{
    tell_u32(out, turn)?;
    tell_u32(out, next)?;
    tell_u64(out, word)
}

fn tell_sections<K: ByteSink>(out: &mut K, rows: &[Row]) -> Result<(), K::Fault>
    requires { CanBeTold rows.now }
    ensures { OnOk result (Tells K.holds out.old out.new (sections rows.now)) }
{
    tell_section::<K, EntityRow>(out, rows)?;
    tell_section::<K, PositionRow>(out, rows)?;
    tell_section::<K, OwnerRow>(out, rows)?;
    tell_section::<K, HealthRow>(out, rows)?;
    tell_section::<K, MotionRow>(out, rows)?;
    tell_section::<K, AttackRow>(out, rows)?;
    tell_section::<K, StanceRow>(out, rows)
}

fn tell_state<K: ByteSink>(out: &mut K, setup: &Setup, state: &State) -> Result<(), K::Fault>
    requires { CanBeTold state.now.rows }
    ensures { OnOk result (Tells K.holds out.old out.new (spelling setup.now state.now)) }
{
    tell_head(out, Version::Two, setup)?;
    tell_clock(out, state.turn, state.next, state.word)?;
    tell_sections(out, state.rows.as_slice())
}

/// The bytes of a state by version 2. A valid state meets both conditions.
pub fn spell(alloc: Global, setup: &Setup, state: &State) -> Result<Vec<u8>, OutOfMemory>
    requires short { All HasShortWay state.now.rows }
    requires few { length state.now.rows < 2 ^ 32 }
    ensures { IfOk result (λ bytes. bytes.items ≡ spelling setup.now state.now) }
{
    let mut out = Vec::new(alloc);
    tell_state(&mut out, setup, state)?;
    Ok(out)
}

/// MD5 of the bytes of a state, which are never there at once. A valid state meets both conditions.
pub fn digest(setup: &Setup, state: &State) -> [u8; 16]
    requires short { All HasShortWay state.now.rows }
    requires few { length state.now.rows < 2 ^ 32 }
    ensures { result ≡ digest_of setup.now state.now }
{
    let mut digesting = Digesting::new();
    match tell_state(&mut digesting, setup, state) {
        Ok(()) => digesting.finalize(),
        Err(never) => match never {},
    }
}
