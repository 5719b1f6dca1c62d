//! An entity and its owner.

/// The id of an entity, and whose it is.
#[derive(Clone, Copy, Debug, PartialEq, Eq)]
pub struct Owned {
    pub id: u32,
    pub owner: u8,
}
