//! A part of an entity in two states, and the first part of one entity that differs. It stands apart from the walk over
//! the entities, which knows nothing of parts.

ghost use Rattle.std.specs.Prelude.{◌≡◌};
ghost use Rattle.sim_diff.specs.{Difference.difference_in, Difference.is_different as is_different_place, Difference.place_at, Merge.AreComparable};

use sim_base::State;
use sim_codec::{Bits, Part, bits_of};

// The parts in their order.
const PARTS: [Part; 8] = [
    Part::Clock,
    Part::Entity,
    Part::Position,
    Part::Owner,
    Part::Health,
    Part::Motion,
    Part::Attack,
    Part::Stance,
];

/// A part of an entity, with its bytes in two states. Entity 1 has the clock, and no other part.
#[derive(Drop)]
pub struct Place {
    pub entity: u32,
    pub part: Part,
    pub left: Bits,
    pub right: Bits,
}

impl Place {
    fn of(left: &State, right: &State, entity: u32, part: Part) -> Place
        requires { AreComparable left.now right.now }
        ensures { result ≡ place_at left.now right.now entity part }
    {
        Place {
            entity,
            part,
            left: bits_of(left, entity, part),
            right: bits_of(right, entity, part),
        }
    }

    fn is_different(&self) -> bool
        ensures { result ≡ is_different_place self.now }
    {
        self.left.bytes() != self.right.bytes()
    }
}

/// The first part of the entity that differs.
pub fn first_difference(left: &State, right: &State, entity: u32) -> Option<Place>
    requires { AreComparable left.now right.now }
    ensures { result ≡ difference_in left.now right.now entity }
{
    PARTS
        .iter()
        .map(|part| Place::of(left, right, entity, *part))
        .find(|place| place.is_different())
}
