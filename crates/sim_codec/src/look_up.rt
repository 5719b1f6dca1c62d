//! The place of a row by its id. Ids ascend, so it is found by halves.

ghost use Rattle.std.specs.{List.HoldsAt, Prelude.◌≡◌, Prelude.◌<◌, Prelude.◌≢◌, Prelude.map, Prelude.length, Prelude.MatchOption, Prelude.All};
ghost use Rattle.sim_codec.specs.Common.{id_of, IsStrictlyIncreasing};

use sim_base::Row;

/// The place of the row with this id, or None where no row has it.
pub fn place_of(rows: &[Row], id: u32) -> Option<usize>
    requires { IsStrictlyIncreasing (map id_of rows.now) }
    ensures { MatchOption result (All (λ row. row.id ≢ id) rows.now) (λ at. (at < length rows.now) × HoldsAt (λ row. row.id ≡ id) rows.now at) }
{
    match rows.binary_search_by_key(&id, |row| row.id) {
        Ok(at) => Some(at),
        Err(_) => None,
    }
}
