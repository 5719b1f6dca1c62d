//! Whether anybody can act. A turn of a match that has buildings alone goes over its rows once, and not once in each phase.

ghost use Rattle.std.specs.{List.list_all, Prelude.not, Prelude.◌≡◌};
ghost use Rattle.{sim_base.specs.Turn.is_spent, sim_turn.specs.Resting.is_resting};

use sim_base::Row;

/// Whether all of these rows rest: none can move or attack, and none has lost its health.
pub fn all_rest(rows: &[Row]) -> bool
    ensures { result ≡ list_all is_resting rows.now }
{
    rows.iter().all(|row| rests(row))
}

fn rests(row: &Row) -> bool
    ensures { result ≡ is_resting row.now }
{
    row.motion.is_none() && row.attack.is_none() && is_well(row)
}

// Whether the row has health left, or never had any.
fn is_well(row: &Row) -> bool
    ensures { result ≡ not (is_spent row.now.health) }
{
    match row.health {
        Some(health) => health.raw() > 0,
        None => true,
    }
}
