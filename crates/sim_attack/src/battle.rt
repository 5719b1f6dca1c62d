//! What all rows of a phase are looked at with.

use sim_base::{Setup, State};
use sim_plans::RowIndex;

/// A state of a match as it was before the phase, and where its rows stand.
#[derive(Clone, Copy)]
pub struct Battle<'a> {
    pub setup: &'a Setup,
    pub state: &'a State,
    pub index: &'a RowIndex,
}
