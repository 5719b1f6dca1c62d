//! Whether bytes are the spelling of the state that was read from them. The spelling is told into a comparison, section
//! by section as the rows of each are taken, so that no memory is needed for it.

ghost use Rattle.std.specs.{List.filter_map, List.flat_map, Prelude.IsTrue, Prelude.OnOk, Prelude.◌↔◌, Prelude.◌≡◌};
ghost use Rattle.sim_codec.specs.{Common.Tells, Common.section, Loading.sections_by, Loading.spelled_by, Loading.stances};

use crate::part::PartForm;
use crate::spelling::{tell_clock, tell_head};
use crate::stored::{Stored, StoredRows};
use sim_base::Setup;
use sim_bytes::{
    AttackRow, ByteSink, Comparing, EntityRow, HealthRow, MotionRow, OwnerRow, PositionRow,
    StanceRow, Version, tell_u8, tell_u32,
};

fn tell_section<'a, K: ByteSink, R: PartForm<'a>>(
    out: &mut K,
    rows: &StoredRows<'a>,
) -> Result<(), K::Fault>
    ensures { OnOk result (Tells K.holds out.old out.new (section R.TAG R.spelled (filter_map R.in_row rows.now))) }
{
    tell_u8(out, R::tag())?;
    tell_u32(out, rows.count::<R>())?;
    rows.tell_part::<K, R>(out)
}

// Tells the section of stances, if the version has it.
fn tell_stances<K: ByteSink>(
    out: &mut K,
    version: Version,
    rows: &StoredRows<'_>,
) -> Result<(), K::Fault>
    ensures { OnOk result (Tells K.holds out.old out.new (stances version rows.now)) }
{
    match version {
        Version::One => Ok(()),
        Version::Two => tell_section::<K, StanceRow>(out, rows),
    }
}

fn tell_sections<K: ByteSink>(
    out: &mut K,
    version: Version,
    rows: &StoredRows<'_>,
) -> Result<(), K::Fault>
    ensures { OnOk result (Tells K.holds out.old out.new (sections_by version rows.now)) }
{
    tell_section::<K, EntityRow>(out, rows)?;
    tell_section::<K, PositionRow>(out, rows)?;
    tell_section::<K, OwnerRow>(out, rows)?;
    tell_section::<K, HealthRow>(out, rows)?;
    tell_section::<K, MotionRow>(out, rows)?;
    tell_section::<K, AttackRow>(out, rows)?;
    tell_stances(out, version, rows)
}

fn tell_stored<K: ByteSink>(
    out: &mut K,
    version: Version,
    setup: &Setup,
    stored: &Stored<'_>,
) -> Result<(), K::Fault>
    ensures { OnOk result (Tells K.holds out.old out.new (spelled_by version setup.now stored.now)) }
{
    tell_head(out, version, setup)?;
    tell_clock(out, stored.turn, stored.next, stored.word)?;
    tell_sections(out, version, &stored.rows)
}

/// Whether these are the bytes of the state by the version. It takes no memory.
pub fn is_spelled(version: Version, setup: &Setup, stored: &Stored<'_>, bytes: &[u8]) -> bool
    ensures { IsTrue result ↔ (bytes.now ≡ spelled_by version setup.now stored.now) }
{
    let mut comparing = Comparing::new(bytes);
    match tell_stored(&mut comparing, version, setup, stored) {
        Ok(()) => comparing.is_same(),
        Err(never) => match never {},
    }
}
