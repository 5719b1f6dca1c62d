//! What all players see and have seen, kept from state to state.

ghost use Rattle.sim_vision.specs.{Common.{IsSetup, IsValid, list_all, list_any, Row as AnyRow, State as AnyState}, Told.explored_file};
ghost use Rattle.sim_vision.specs.Vision.{all_counts, all_seen, blind, cells_in, explored_with, is_bit, is_missed, is_set, joined_at, last_of, part_of};
ghost use Rattle.{sim_vision.specs.Vision.{refusal_of, vision_after, vision_next}, std.specs.List.zip};
ghost use Rattle.std.specs.Prelude.{All, Err, false, IfErr, IfOk, length, List, map, None, OnErr, OnOk, Some, take, true, ℕ, ◌*◌, ◌∷◌, ◌≡◌, ◌≤◌, ◌⊎◌};
ghost use Rattle.sim_vision.specs.declared.fault.SightFault.TheVariants as faults;

use crate::disc::Disc;
use crate::fault::SightFault;
use crate::fog::Fog;
use crate::reach::discs_of;
use sim_base::{Global, OutOfMemory, Setup, State};
use sim_trail::Trail;
use std::marker::Model;

/// For each player how many of his rows see each cell, and which cells he has explored. Contracts see the match, and both as
/// lists by player, then z, then x.
#[derive(Drop)]
pub struct Sight<'a> {
    setup: &'a Setup,
    trail: Trail,
    discs: Vec<Disc>,
    fog: Fog,
}

impl<'a> Model for Sight<'a> {
    ghost use Rattle.sim_vision.specs.{Keeping.Keeps, Vision.Vision};

    ghost Value = { Vision };

    ghost view = { λ sight. record { setup = sight.setup.now; counts = sight.fog.counts.items; explored = sight.fog.flags.items } };

    ghost invariant = { λ sight. Keeps sight.setup.now sight.trail sight.discs.items sight.fog };
}

impl<'a> Sight<'a> {
    /// Nothing is visible, and nothing explored.
    pub fn new(alloc: Global, setup: &'a Setup) -> Result<Sight<'a>, OutOfMemory>
        requires { IsSetup setup.now }
        ensures { IfOk result (λ sight. sight ≡ blind setup.now) }
    {
        Ok(Sight {
            setup,
            trail: Trail::new(alloc),
            discs: discs_of(alloc, setup.templates.as_slice())?,
            fog: Fog::new(alloc, setup.land.width, setup.land.depth, setup.players)?,
        })
    }

    /// Joins at a state with the explored cells of a file, one byte for each cell by player, then z, then x: 1 where it is
    /// explored, and else 0.
    pub fn join(
        alloc: Global,
        setup: &'a Setup,
        state: &State,
        explored: &[u8],
    ) -> Result<Sight<'a>, SightFault>
        requires limits { IsSetup setup.now }
        requires valid { IsValid setup.now state.now }
        ensures joined { IfOk result (λ sight. sight ≡ joined_at setup.now state.now explored.now) }
        ensures accepted { IfOk result (λ _. refusal_of setup.now state.now.rows explored.now ≡ None) }
        ensures refused { IfErr result (λ fault. (fault ≡ faults.OutOfMemory) ⊎ (refusal_of setup.now state.now.rows explored.now ≡ Some fault)) }
        ensures length { refusal_of setup.now state.now.rows explored.now ≡ Some faults.Length → result ≡ Err faults.Length }
        ensures not_bit { refusal_of setup.now state.now.rows explored.now ≡ Some faults.NotBit → result ≡ Err faults.NotBit }
    {
        check_bytes(setup, explored)?;
        let mut sight = Sight::new(alloc, setup)?;
        sight.follow(state)?;
        sight.take_over(explored)?;
        Ok(sight)
    }

    // Takes over explored cells, unless one that is counted is not among them.
    fn take_over(&mut self, explored: &[u8]) -> Result<(), SightFault>
        requires length { length explored.now ≡ length self.old.explored }
        requires bits { list_all is_bit explored.now ≡ true }
        ensures setup { self.new.setup ≡ self.old.setup }
        ensures counts { self.new.counts ≡ self.old.counts }
        ensures explored { OnOk result (self.new.explored ≡ map is_set explored.now) }
        ensures covered { OnOk result (list_any is_missed (zip self.old.counts explored.now) ≡ false) }
        ensures refused { IfErr result (λ fault. (fault ≡ faults.Unseen) × (list_any is_missed (zip self.old.counts explored.now) ≡ true)) }
    {
        if self.fog.misses(explored) {
            return Err(SightFault::Unseen);
        }
        self.fog.explore(explored);
        Ok(())
    }

    /// Looks at a state of the match: the counts are those of its rows, and what is visible is explored.
    pub fn follow(&mut self, state: &State) -> Result<(), OutOfMemory>
        requires { IsValid self.old.setup state.now }
        ensures next { OnOk result (self.new ≡ vision_next self.old state.now) }
        ensures setup { self.new.setup ≡ self.old.setup }
        ensures unchanged { OnErr result (self.new ≡ self.old) }
    {
        let shifts = self.trail.follow(state)?;
        self.fog.follow(self.discs.as_slice(), shifts.as_slice());
        Ok(())
    }

    /// Looks at these states one after the other, as an observer does who has kept them. Where memory is wanting, it has looked
    /// at those of a beginning of the list.
    pub fn follow_each(&mut self, states: &[State]) -> Result<(), OutOfMemory>
        requires { All (IsValid self.old.setup) states.now }
        ensures after { OnOk result (self.new ≡ vision_after self.old states.now) }
        ensures counts { OnOk result ((first : AnyState) (later : List AnyState) → states.now ≡ first ∷ later →
            self.new.counts ≡ all_counts self.old.setup (last_of first later).rows) }
        ensures explored { OnOk result (self.new.explored ≡ explored_with self.old.explored (all_seen self.old.setup states.now)) }
        ensures begun { OnErr result ((n : ℕ) × (self.new ≡ vision_after self.old (take n states.now))) }
    {
        // The invariant of the fields holds here, which `explored` rests on.
        let _ = &self.setup;
        for state in states {
            self.follow(state)?;
        }
        Ok(())
    }

    /// How many players the match has.
    pub fn players(&self) -> u8
        ensures players { result ≡ self.now.setup.players }
        ensures few { result ≤ 8 }
    {
        self.setup.players
    }

    /// How many rows of a player see each cell, by z and then x.
    pub fn counts(&self, player: u8) -> &[u16]
        requires first { 1 ≤ player }
        requires last { player ≤ self.now.setup.players }
        ensures { result.now ≡ part_of self.now.setup player self.now.counts }
    {
        let (from, to) = self.fog.part(player);
        &self.fog.counts[from..to]
    }

    /// Whether a player has explored each cell, by z and then x.
    pub fn explored(&self, player: u8) -> &[bool]
        requires first { 1 ≤ player }
        requires last { player ≤ self.now.setup.players }
        ensures { result.now ≡ part_of self.now.setup player self.now.explored }
    {
        let (from, to) = self.fog.part(player);
        &self.fog.flags[from..to]
    }

    /// The file of explored cells: one byte for each cell by player, then z, then x. It is taken over at a state with these
    /// counts.
    pub fn explored_bytes(&self, alloc: Global) -> Result<Vec<u8>, OutOfMemory>
        ensures bytes { IfOk result (λ bytes. bytes.items ≡ explored_file self.now) }
        ensures back { IfOk result (λ bytes. map is_set bytes.items ≡ self.now.explored) }
        ensures accepted { IfOk result (λ bytes. (rows : List AnyRow) → self.now.counts ≡ all_counts self.now.setup rows →
            refusal_of self.now.setup rows bytes.items ≡ None) }
    {
        self.fog.bytes(alloc)
    }
}

// Refuses bytes that are the explored cells of no state of the match.
fn check_bytes(setup: &Setup, bytes: &[u8]) -> Result<(), SightFault>
    ensures full { IfOk result (λ done. length bytes.now ≡ setup.now.players * cells_in setup.now) }
    ensures bits { IfOk result (λ done. list_all is_bit bytes.now ≡ true) }
    ensures refused { IfErr result (λ fault. (rows : List AnyRow) → refusal_of setup.now rows bytes.now ≡ Some fault) }
{
    if bytes.len() != count_of_cells(setup) {
        return Err(SightFault::Length);
    }
    if !are_bits(bytes) {
        return Err(SightFault::NotBit);
    }
    Ok(())
}

// How many cells the ground has for all players.
fn count_of_cells(setup: &Setup) -> usize
    ensures { result ≡ setup.now.players * cells_in setup.now }
{
    usize::from(setup.players) * (usize::from(setup.land.width) * usize::from(setup.land.depth))
}

fn are_bits(bytes: &[u8]) -> bool
    ensures { result ≡ list_all is_bit bytes.now }
{
    bytes.iter().all(|byte| *byte <= 1)
}
