//! How many marks of each player see each cell, and which cells each player has explored: two lists by player, then z, then x.

ghost use Rattle.std.specs.Prelude.{length, map, vec_len, ◌*◌, ◌≡◌};
ghost use Rattle.sim_vision.specs.{Vision.is_set, Watching.IsExtent};

use crate::crossing::{Crossing, next_crossing, rows_of, span_of};
use crate::disc::Disc;
use crate::row::turn_row;
use sim_base::{Global, OutOfMemory};
use sim_trail::Shift;

/// The counts and the explored cells of a ground of `width` by `depth` cells, for this many players.
#[derive(Debug, Drop)]
pub struct Fog {
    pub width: u16,
    pub depth: u16,
    pub players: u8,
    pub counts: Vec<u16>,
    pub flags: Vec<bool>,
    ghost limits: { IsExtent (record { size = record { width = width; depth = depth }; players = players }) },
    ghost counted: { vec_len counts ≡ players * (width * depth) },
    ghost flagged: { vec_len flags ≡ players * (width * depth) },
}

impl Fog {
    ghost use Rattle.sim_vision.specs.{Common.list_any, Fogs.{extent_of, IsSameExtent, Turns, TurnsAt}, Vision.{is_missed, is_set}};
    ghost use Rattle.sim_vision.specs.Watching.{AreLit, CanFollow, CanTurn, CanTurnAt, HasFollowed, IsExtent, IsKnownCrossing, IsKnownShift, IsOwnedBy};
    ghost use Rattle.sim_vision.specs.Watching.{IsPlayerOf, IsRowOf, one_if, start_of};
    ghost use Rattle.std.specs.{List.zip, Prelude.{All, false, IfOk, length, map, replicate, slice_range, ◌*◌, ◌+◌, ◌-◌, ◌<◌, ◌≡◌, ◌≤◌}};

    /// Nothing is seen, and nothing explored.
    pub fn new(alloc: Global, width: u16, depth: u16, players: u8) -> Result<Fog, OutOfMemory>
        requires { IsExtent (record { size = record { width = width; depth = depth }; players = players }) }
        ensures extent { IfOk result (λ fog. extent_of fog ≡ record { size = record { width = width; depth = depth }; players = players }) }
        ensures counts { IfOk result (λ fog. fog.counts.items ≡ replicate (players * (width * depth)) 0) }
        ensures flags { IfOk result (λ fog. fog.flags.items ≡ replicate (players * (width * depth)) false) }
    {
        let cells = usize::from(players) * (usize::from(width) * usize::from(depth));
        let counts = vec![in alloc; 0u16; cells]?;
        let flags = vec![in alloc; false; cells]?;
        Ok(Fog {
            width,
            depth,
            players,
            counts,
            flags,
        })
    }

    // Where the row z of a player begins in both lists.
    fn start(&self, player: u8, z: u16) -> usize
        requires { IsRowOf (extent_of self.now) player z }
        ensures start { result ≡ start_of (extent_of self.now).size player z }
        ensures within { result + self.now.width ≤ length self.now.counts.items }
    {
        let area = usize::from(self.width) * usize::from(self.depth);
        (usize::from(player) - 1) * area + usize::from(z) * usize::from(self.width)
    }

    /// Whether a cell that is counted has the byte 0.
    pub fn misses(&self, bytes: &[u8]) -> bool
        ensures { result ≡ list_any is_missed (zip self.now.counts.items bytes.now) }
    {
        self.counts
            .iter()
            .zip(bytes)
            .any(|(count, byte)| 0 < *count && *byte == 0)
    }

    /// Takes over the explored cells of these bytes.
    pub fn explore(&mut self, bytes: &[u8])
        requires { length bytes.now ≡ length self.old.flags.items }
        ensures extent { IsSameExtent self.old self.new }
        ensures counts { self.new.counts.items ≡ self.old.counts.items }
        ensures flags { self.new.flags.items ≡ map is_set bytes.now }
    {
        set_flags(self.flags.as_mut_slice(), bytes);
    }

    /// A byte for each flag: 1 where it is set, and else 0.
    pub fn bytes(&self, alloc: Global) -> Result<Vec<u8>, OutOfMemory>
        ensures { IfOk result (λ bytes. bytes.items ≡ map one_if self.now.flags.items) }
    {
        let mut bytes = Vec::with_capacity(alloc, self.flags.len())?;
        for flag in &self.flags {
            bytes.push(u8::from(*flag))?;
        }
        Ok(bytes)
    }

    /// Where the part of a player begins in both lists, and where it ends.
    pub fn part(&self, player: u8) -> (usize, usize)
        requires { IsPlayerOf (extent_of self.now) player }
        ensures from { result.0 ≡ (player - 1) * (self.now.width * self.now.depth) }
        ensures to { result.1 ≡ player * (self.now.width * self.now.depth) }
        ensures within { result.1 ≤ length self.now.counts.items }
        ensures explored_within { result.1 ≤ length self.now.flags.items }
        ensures ordered { result.0 ≤ result.1 }
    {
        let area = usize::from(self.width) * usize::from(self.depth);
        let player = usize::from(player);
        ((player - 1) * area, player * area)
    }

    /// Follows shifts of marks, which tell nothing gone that is not counted.
    pub fn follow(&mut self, discs: &[Disc], shifts: &[Shift])
        requires known { All (IsKnownShift (extent_of self.old) discs.now) shifts.now }
        requires lit { AreLit (extent_of self.old) self.old.counts.items self.old.flags.items }
        requires can { CanFollow (extent_of self.old) discs.now shifts.now self.old.counts.items }
        ensures extent { IsSameExtent self.old self.new }
        ensures followed { HasFollowed (extent_of self.old) discs.now shifts.now
            self.old.counts.items self.new.counts.items self.old.flags.items self.new.flags.items }
        ensures lit { AreLit (extent_of self.old) self.new.counts.items self.new.flags.items }
    {
        let mut rest = shifts;
        'shifts: while let Some((crossing, more)) = next_crossing(rest) {
            self.turn(discs, crossing);
            rest = more;
        }
    }

    // A player's marks cross: what the old one saw is counted no more, and what the new one sees is counted and explored.
    fn turn(&mut self, discs: &[Disc], crossing: Crossing)
        requires known { IsKnownCrossing (extent_of self.old) discs.now crossing }
        requires can { CanTurn (extent_of self.old) discs.now crossing self.old.counts.items self.old.flags.items }
        ensures { Turns discs.now crossing self.old self.new }
    {
        let owner = crossing.owner();
        if owner == 0 {
            return;
        }
        let (first, end) = rows_of(discs, &crossing, self.depth);
        for z in first..end {
            self.turn_at(discs, &crossing, owner, z);
        }
    }

    // The same in one row.
    fn turn_at(&mut self, discs: &[Disc], crossing: &Crossing, owner: u8, z: u16)
        requires known { IsKnownCrossing (extent_of self.old) discs.now crossing.now }
        requires owner { IsOwnedBy crossing.now owner }
        requires row { IsRowOf (extent_of self.old) owner z }
        requires can { CanTurnAt (extent_of self.old) discs.now crossing.now z self.old.counts.items self.old.flags.items }
        ensures { TurnsAt discs.now crossing.now z self.old self.new }
    {
        let start = self.start(owner, z);
        let old = span_of(discs, &crossing.old, z, self.width);
        let new = span_of(discs, &crossing.new, z, self.width);
        turn_row(
            self.counts.as_mut_slice(),
            self.flags.as_mut_slice(),
            start,
            old,
            new,
        );
    }
}

// Each flag is that of its byte.
fn set_flags(flags: &mut [bool], bytes: &[u8])
    requires { length bytes.now ≡ length flags.old }
    ensures { flags.new ≡ map is_set bytes.now }
{
    for at in 0..flags.len() {
        flags[at] = bytes[at] == 1;
    }
}
