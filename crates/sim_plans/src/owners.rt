//! Who is an enemy of whom.

ghost use Rattle.std.specs.Prelude.{◌≡◌, ◌<◌, length};
ghost use Rattle.sim_plans.specs.Common.{enemies_of, in_mask as in_mask_of};

use sim_base::Setup;

/// Whether the other is an enemy of this owner, 0 being Gaia.
pub fn is_enemy_of(setup: &Setup, owner: u8, other: u8) -> bool
    requires owner { owner < length setup.now.land.masks }
    requires other { other < 32 }
    ensures { result ≡ in_mask_of (enemies_of setup.now owner) other }
{
    in_mask(setup.land.masks.as_slice()[usize::from(owner)], other)
}

// Whether the mask has the bit of this owner.
fn in_mask(mask: u32, owner: u8) -> bool
    requires { owner < 32 }
    ensures { result ≡ in_mask_of mask owner }
{
    (mask >> owner) % 2 == 1
}
