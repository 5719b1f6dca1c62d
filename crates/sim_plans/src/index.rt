//! The places of rows, noted once for the many questions of a phase.

ghost use Rattle.sim_plans.specs.{Common.{id_of, IsStrictlyIncreasing, row_of}, Found.found};
ghost use Rattle.std.specs.{List.HoldsAt, Prelude.{IfSome, length, map, MatchOption, None, option_copied, Some, ◌<◌, ◌≡◌}};

use crate::lookups;
use sim_base::{Global, OutOfMemory, Row, State};

// How many places are noted at most, one for each remainder of an id.
const NOTES: usize = 4096;

/// The places of rows, by the remainders of their ids. A noted place is a hint: where a row of another id stands there, the
/// row is looked for by binary search. So the answers are right over any rows, and come at once over those that were noted.
#[derive(Drop)]
pub struct RowIndex {
    noted: Vec<u16>,
}

impl RowIndex {
    /// Notes where these rows stand.
    pub fn of(alloc: Global, rows: &[Row]) -> Result<RowIndex, OutOfMemory> {
        let mut noted = vec![in alloc; 0; NOTES]?;
        for (place, row) in rows.iter().enumerate() {
            if let Some(note) = noted.get_mut(note_of(row.id)) {
                *note = u16::try_from(place).unwrap_or(0);
            }
        }
        Ok(RowIndex { noted })
    }

    // The place that is noted, if the row with this id stands there.
    fn place_noted(&self, rows: &[Row], id: u32) -> Option<usize>
        ensures { IfSome result (λ at. (at < length rows.now) × HoldsAt (λ row. row.id ≡ id) rows.now at) }
    {
        let at = usize::from(*self.noted.as_slice().get(note_of(id))?);
        match rows.get(at) {
            Some(row) if row.id == id => Some(at),
            _ => None,
        }
    }

    /// The place of the row with this id, from 0.
    pub fn place_of(&self, rows: &[Row], id: u32) -> Option<usize>
        requires { IsStrictlyIncreasing (map id_of rows.now) }
        ensures { MatchOption result (found rows.now id ≡ None) (λ at. (at < length rows.now) × HoldsAt (λ row. found rows.now id ≡ Some row) rows.now at) }
    {
        match self.place_noted(rows, id) {
            Some(at) => Some(at),
            None => lookups::place_of(rows, id),
        }
    }

    /// The row with this id, if it is alive.
    pub fn find_row<'s>(&self, state: &'s State, id: u32) -> Option<&'s Row>
        requires { IsStrictlyIncreasing (map id_of state.now.rows) }
        ensures { option_copied result ≡ row_of state.now id }
    {
        let rows = state.rows.as_slice();
        match self.place_of(rows, id) {
            Some(at) => Some(&rows[at]),
            None => None,
        }
    }
}

// Which note an id has.
fn note_of(id: u32) -> usize {
    id as usize % NOTES
}
