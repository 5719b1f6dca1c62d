//! What a match with an economy is played with. The parts of its paid turns are methods of it, in files of their own.

use crate::{DeedTable, Economy};
use sim_orders::OrderTable;
use std::alloc::Global;

/// What the paid turns of a match are played with: the handlers of commands and of deeds, and the economy of the match.
#[derive(Drop)]
pub struct Market<'a> {
    pub alloc: Global,
    pub orders: &'a OrderTable,
    pub deeds: &'a DeedTable,
    pub economy: &'a Economy,
}
