//! The roots: obstructions of players that can train, on a cell that their owner holds. A flood begins there.

ghost use Rattle.sim_territory.specs.{Holders.{AreInfluences, ground_size, holder_by, is_root_under, IsWetAt, roots_of}, Tables.{IsMarkIn, size_in, sum_at}};
ghost use Rattle.std.specs.Prelude.{OnOk, [], ◌≡◌};

use crate::flood::Flood;
use crate::influences::Influences;
use sim_base::{OutOfMemory, Setup};
use sim_trail::Mark;

// Whether an entity roots its owner's ground.
fn is_root(setup: &Setup, influences: &Influences, mark: &Mark) -> bool
    requires { IsMarkIn influences.now.sums mark.now }
    ensures { result ≡ is_root_under setup.now (holder_by influences.now.sums.players (λ player. sum_at influences.now.sums player mark.now.cell)) mark.now }
{
    match setup.templates.as_slice().get(usize::from(mark.template)) {
        Some(template) => {
            template.obstruct.is_some()
                && template.train.is_some()
                && 0 < mark.owner
                && influences.holder(mark.cell) == mark.owner
        }
        None => false,
    }
}

/// Comes to the cells of the roots.
pub fn wet_roots(
    flood: &mut Flood,
    setup: &Setup,
    influences: &Influences,
    marks: &[Mark],
) -> Result<(), OutOfMemory>
    requires kept { AreInfluences setup.now marks.now influences.now.sums }
    requires size { ground_size flood.old ≡ size_in influences.now.sums }
    requires dry { IsWetAt [] flood.old }
    ensures size { OnOk result (ground_size flood.new ≡ ground_size flood.old) }
    ensures wet { OnOk result (IsWetAt (roots_of setup.now marks.now) flood.new) }
{
    for mark in marks {
        if is_root(setup, influences, mark) {
            flood.wet(mark.cell)?;
        }
    }
    Ok(())
}
