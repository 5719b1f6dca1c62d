//! Boards over four real systems, what systems lend, and runs with other systems and handlers.

mod battle;
mod beside;
mod boards;
mod checks;
mod handlers;
mod lending;
mod plain;
mod refusing;
mod runs;
mod sharing;
mod sights;
mod steady;
mod ways;
