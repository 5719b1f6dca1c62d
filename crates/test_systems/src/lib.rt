//! Boards over real systems, every question and the groups of ids beside their plain filters, and runs that are handed systems
//! that find no memory or handlers of another function, as tests. It promises nothing by itself.
#![tactic(auto)]

#[cfg(test)]
mod tests;
