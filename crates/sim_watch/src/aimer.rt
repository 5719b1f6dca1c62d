//! An entity and its target.

/// The id of an entity, and whom it attacks, or 0.
#[derive(Clone, Copy, Debug, PartialEq, Eq)]
pub struct Aimer {
    pub id: u32,
    pub target: u32,
}
