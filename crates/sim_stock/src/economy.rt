//! The economy of a match: what players begin with, what entities cost and bring, and the deeds of each turn.

use crate::{DatedDeeds, Rates, Stocks};

/// What the players have when the match begins, what an entity of each template costs and what it brings in a turn, and
/// the deeds, which ascend by their turns.
#[derive(Debug, Drop)]
pub struct Economy {
    pub start: Stocks,
    pub prices: Rates,
    pub income: Rates,
    pub deeds: DatedDeeds,
}
