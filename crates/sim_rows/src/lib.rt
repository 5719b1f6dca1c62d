//! Whole runs in memory over real systems: each command once with what it prints, and every call of a shelf and a sink failing
//! in turn; and the edge over a system that interrupts its calls, cuts them short and refuses them. Many more cases stand in tables that the built program is
//! run on. It promises nothing by itself.
#![tactic(auto)]

#[cfg(test)]
mod tests;
