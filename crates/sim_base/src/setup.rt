//! A match before it begins: its ground, its templates, what stands there first and what is ordered in it.

use crate::{Ids, Items, PlayerCommand, Point, Rects, Templates};

/// The ground of a match: its size in cells, what is closed for good, and the enemies of each owner.
///
/// `masks` has one entry for Gaia, who is owner 0, and one for each player; bit p stands for owner p.
#[derive(Debug, Drop)]
pub struct Land {
    pub width: u16,
    pub depth: u16,
    pub closed: Rects,
    pub masks: Ids,
}

/// An entity that stands there when the match begins: the number of its template, its owner and its place.
#[derive(Clone, Copy, Debug, PartialEq, Eq)]
pub struct First {
    pub template: u16,
    pub owner: u8,
    pub at: Point,
}

/// The entities that stand there when a match begins.
pub type Firsts = Items<First>;

/// A command of the match file, and the turn in which it is given.
#[derive(Debug, Drop)]
pub struct Timed {
    pub turn: u32,
    pub order: PlayerCommand,
}

/// The commands of a match file.
pub type Timeds = Items<Timed>;

/// A match: its id, which is MD5 of its file, its ground and players, its rules, and its commands by ascending turn.
///
/// `cap` is the most entities that a player may have when he makes one, `delay` how many turns lie between an order
/// and its turn, `turns` how many turns the match has, and `seed` the random word at the start.
#[derive(Debug, Drop)]
pub struct Setup {
    pub id: [u8; 16],
    pub land: Land,
    pub players: u8,
    pub cap: u16,
    pub delay: u8,
    pub turns: u32,
    pub seed: u64,
    pub templates: Templates,
    pub first: Firsts,
    pub commands: Timeds,
}
