//! A realm: who holds which ground after the states that it followed, and which of it is rooted.

ghost use Rattle.std.specs.Prelude.{[], IfOk, IsOk, OnErr, OnOk, ◌≡◌, ◌≤◌};
ghost use Rattle.sim_territory.specs.{Common.IsSetup, Common.IsValid, Holders.AreRooted, Realms.holders_in, Realms.influences_in, Realms.realm_of};

use crate::flood::Flood;
use crate::influences::Influences;
use crate::roots::wet_roots;
use crate::sums::Sums;
use sim_base::{Global, Items, OutOfMemory, Setup, State};
use sim_trail::Trail;
use std::marker::Model;

/// For each cell of a ground, by z, then x, whether it is rooted.
pub type Flags = Items<bool>;

/// The territories of a match. Contracts see the match, and the marks of the state that was followed last.
#[derive(Drop)]
pub struct Realm<'a> {
    alloc: Global,
    setup: &'a Setup,
    trail: Trail,
    influences: Influences,
}

impl<'a> Model for Realm<'a> {
    ghost use Rattle.sim_territory.specs.{Holders.AreInfluences, Realms.RealmOf};

    ghost Value = { RealmOf };

    ghost view = { λ realm. record { setup = realm.setup.now; marks = realm.trail } };

    ghost invariant = { λ realm. AreInfluences realm.setup.now realm.trail realm.influences.sums };
}

impl<'a> Realm<'a> {
    /// Nobody has influence yet.
    pub fn new(alloc: Global, setup: &'a Setup) -> Result<Realm<'a>, OutOfMemory>
        requires { IsSetup setup.now }
        ensures { IfOk result (λ realm. realm ≡ record { setup = setup.now; marks = [] }) }
    {
        let sums = Sums::new(alloc, setup.land.width, setup.land.depth, setup.players)?;
        let influences = Influences::new(alloc, sums)?;
        Ok(Realm {
            alloc,
            setup,
            trail: Trail::new(alloc),
            influences,
        })
    }

    /// Follows the match to a state. Where there is no memory nothing changes; none is wanted where the marks are those before.
    pub fn follow(&mut self, state: &State) -> Result<(), OutOfMemory>
        requires { IsValid self.old.setup state.now }
        ensures ok { OnOk result (self.new ≡ realm_of self.old.setup state.now) }
        ensures err { OnErr result (self.new ≡ self.old) }
        ensures light { self.old ≡ realm_of self.old.setup state.now → IsOk result }
    {
        let shifts = self.trail.follow(state)?;
        self.influences.follow(self.setup, shifts.as_slice());
        Ok(())
    }

    /// Lends the influence of a player at each cell, by z, then x.
    pub fn influence(&self, player: u8) -> &[u32]
        requires least { 1 ≤ player }
        requires most { player ≤ self.now.setup.players }
        ensures { result.now ≡ influences_in self.now player }
    {
        self.influences.sums.layer(player)
    }

    /// Lends who holds each cell, by z, then x: the player's number, or 0.
    pub fn holders(&self) -> &[u8]
        ensures { result.now ≡ holders_in self.now }
    {
        self.influences.holders.as_slice()
    }

    /// Which cells are rooted: those that steps to the east, north, west and south over cells of one holder join to a cell
    /// of his on which he has an obstruction that can train.
    pub fn rooted(&self) -> Result<Flags, OutOfMemory>
        ensures { IfOk result (λ flags. AreRooted self.now.setup self.now.marks flags) }
    {
        let mut flood = Flood::new(self.alloc, self.setup.land.width, self.setup.land.depth)?;
        wet_roots(&mut flood, self.setup, &self.influences, self.trail.marks())?;
        flood.fill(self.influences.holders.as_slice())?;
        let Flood { flags, .. } = flood;
        Ok(Items::from_items(flags))
    }
}
