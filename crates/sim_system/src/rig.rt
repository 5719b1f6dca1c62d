//! The four systems of a match.

ghost use Rattle.std.specs.Prelude.{◌≡◌};
ghost use Rattle.sim_system.specs.{Meanings.all_cleared, Meanings.cleared, Meanings.HaveKinds, RigWords.systems_of};
ghost use Rattle.sim_system.specs.declared.kind.Kind.TheVariants.{Census, Ground, Range, Watch};

use crate::system::System;

/// One system of each kind.
#[derive(Drop)]
pub struct Rig {
    pub ground: Box<dyn System>,
    pub range: Box<dyn System>,
    pub watch: Box<dyn System>,
    pub census: Box<dyn System>,
}

impl Rig {
    /// The rig of these four.
    pub fn new(
        ground: Box<dyn System>,
        range: Box<dyn System>,
        watch: Box<dyn System>,
        census: Box<dyn System>,
    ) -> Rig
        requires first { (meaning ground).kind ≡ Ground }
        requires second { (meaning range).kind ≡ Range }
        requires third { (meaning watch).kind ≡ Watch }
        requires fourth { (meaning census).kind ≡ Census }
        ensures kinds { HaveKinds (systems_of result ⟦<dyn System as System>⟧) }
        ensures first { result.ground ≡ ground }
        ensures second { result.range ≡ range }
        ensures third { result.watch ≡ watch }
        ensures fourth { result.census ≡ census }
    {
        Rig {
            ground,
            range,
            watch,
            census,
        }
    }

    /// Has all four forget the land and all facts.
    pub fn clear(&mut self)
        ensures { systems_of self.new ⟦<dyn System as System>⟧ ≡ all_cleared (systems_of self.old ⟦<dyn System as System>⟧) }
    {
        self.ground.clear();
        self.range.clear();
        self.watch.clear();
        self.census.clear();
    }
}
