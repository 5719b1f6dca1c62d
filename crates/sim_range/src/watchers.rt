//! Who sees whom.

ghost use Rattle.sim_range.specs.{Common.{Fact, in_mask as in_mask_of, IsHeld}, Sights.{is_seen as is_seen_of, is_seen_by as is_seen_by_of, sees as sees_of}};
ghost use Rattle.std.specs.Prelude.{false, IfSome, length, slice_index, ℕ, ◌<◌, ◌≡◌};

use crate::crowd::Held;
use crate::within::in_mask;
use sim_base::Land;
use sim_system::Fact;

/// The mask of an entity's enemies.
pub fn mask_of(land: &Land, fact: &Fact) -> u32
    requires { IsHeld land.now fact.now }
    ensures { result ≡ slice_index land.now.masks fact.now.owner }
{
    land.masks.as_slice()[usize::from(fact.owner)]
}

// Whether an owner is in one of these masks.
fn is_in_any(masks: &[u32], owner: u8) -> bool
    requires { owner < 32 }
    ensures { result ≡ false → (k : ℕ) → k < length masks.now → in_mask_of (slice_index masks.now k) owner ≡ false }
{
    for mask in masks {
        if in_mask(*mask, owner) {
            return true;
        }
    }
    false
}

impl Held<'_> {
    /// Whether a watcher sees an entity.
    pub fn is_seen_by(&self, watcher: &Fact, fact: &Fact) -> bool
        requires watcher { IsHeld self.now.land.now watcher.now }
        requires fact { IsHeld self.now.land.now fact.now }
        ensures { result ≡ is_seen_by_of self.now.land.now watcher.now watcher.now.vision fact.now }
    {
        let Some(vision) = watcher.vision else {
            return false;
        };
        let mask = mask_of(self.land, watcher);
        fact.id != watcher.id && self.is_within(fact, &watcher.at, vision, mask)
    }

    /// Whether a watcher sees what is kept of an entity, if anything.
    pub fn is_seen(&self, watcher: &Fact, part: &Option<Fact>) -> bool
        requires watcher { IsHeld self.now.land.now watcher.now }
        requires part { IfSome part.now (IsHeld self.now.land.now) }
        ensures { result ≡ is_seen_of self.now.land.now watcher.now part.now }
    {
        match part {
            Some(fact) => self.is_seen_by(watcher, fact),
            None => false,
        }
    }

    /// Whether what is kept of a watcher, if anything, sees an entity.
    pub fn sees(&self, part: &Option<Fact>, fact: &Fact) -> bool
        requires part { IfSome part.now (IsHeld self.now.land.now) }
        requires fact { IsHeld self.now.land.now fact.now }
        ensures { result ≡ sees_of self.now.land.now part.now fact.now }
    {
        match part {
            Some(watcher) => self.is_seen_by(watcher, fact),
            None => false,
        }
    }

    /// Whether what is kept of an entity, if anything, has an enemy or is one. Without that nobody sees it, and it sees nobody.
    pub fn has_foes(&self, part: &Option<Fact>) -> bool
        requires part { IfSome part.now (IsHeld self.now.land.now) }
        ensures { result ≡ false → (fact : Fact) → IsHeld self.now.land.now fact → (is_seen_of self.now.land.now fact part.now ≡ false)
            × (sees_of self.now.land.now part.now fact ≡ false) }
    {
        match part {
            Some(fact) => mask_of(self.land, fact) != 0
                || is_in_any(self.land.masks.as_slice(), fact.owner),
            None => false,
        }
    }
}
