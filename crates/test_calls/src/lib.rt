//! Tests of public calls that the program does not make, or makes in one way alone: each is called once with ample memory,
//! and its answer compared with a worked one. It promises nothing by itself.
#![tactic(auto)]

#[cfg(test)]
mod tests;
