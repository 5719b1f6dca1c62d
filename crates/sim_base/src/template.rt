//! What a kind of entity is: the parts of its template. A part that is None is one that entities of this kind lack.

use crate::{Fixed, Ids, Items, Name};

/// How well a body withstands each kind of damage: levels from 0 to 40.
#[derive(Clone, Copy, Debug, PartialEq, Eq)]
pub struct Resist {
    pub hack: u8,
    pub pierce: u8,
    pub crush: u8,
}

/// The damage of a hit, by kind.
#[derive(Clone, Copy, Debug, PartialEq, Eq)]
pub struct Harm {
    pub hack: Fixed,
    pub pierce: Fixed,
    pub crush: Fixed,
}

/// An attack: its damage, its range and vision in metres, the turns without a hit after a hit, and how many hits of a
/// hundred land.
#[derive(Clone, Copy, Debug, PartialEq, Eq)]
pub struct Arms {
    pub harm: Harm,
    pub range: Fixed,
    pub vision: Fixed,
    pub repeat: u16,
    pub accuracy: u8,
}

/// How many cells an obstruction takes, from 1 to 16 each way.
#[derive(Clone, Copy, Debug, PartialEq, Eq)]
pub struct Base {
    pub width: u8,
    pub depth: u8,
}

/// A kind of entity: its greatest health, its levels of resistance, its speed in metres a second, its obstruction, its
/// attack, and the numbers of the templates that it trains.
#[derive(Debug, Drop)]
pub struct Template {
    pub name: Name,
    pub health: Option<Fixed>,
    pub resist: Resist,
    pub speed: Option<Fixed>,
    pub obstruct: Option<Base>,
    pub arms: Option<Arms>,
    pub train: Option<Ids>,
}

/// The templates of a match. The number of a template is its place.
pub type Templates = Items<Template>;
