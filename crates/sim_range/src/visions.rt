//! How far anybody sees. At most: buckets further away need not be looked into. At least: nor need buckets that lie within it
//! before and after a move.

ghost use Rattle.std.specs.Prelude.{◌≤◌, IfSome, All};
ghost use Rattle.sim_range.specs.Sights.{SeesFrom, SeesWithin};

use sim_system::Fact;

/// In raws: nobody who can attack sees less far than `near`, and nobody further than `far`. They take in more and more, and never
/// less.
#[derive(Clone, Copy, Debug)]
pub struct Visions {
    pub near: u32,
    pub far: u32,
}

impl Visions {
    /// Nobody sees.
    pub fn new() -> Visions {
        Visions {
            near: u32::MAX,
            far: 0,
        }
    }

    /// These and that of an entity, if anything is kept of it.
    pub fn widened(&self, part: &Option<Fact>) -> Visions
        ensures less { result.near ≤ self.now.near }
        ensures more { self.now.far ≤ result.far }
        ensures near { IfSome part.now (SeesFrom result.near) }
        ensures far { IfSome part.now (SeesWithin result.far) }
    {
        match part {
            Some(
                Fact {
                    vision: Some(vision),
                    ..
                },
            ) => {
                let reach = vision.raw().unsigned_abs();
                Visions {
                    near: self.near.min(reach),
                    far: self.far.max(reach),
                }
            }
            _ => *self,
        }
    }
}

/// Those of these facts.
pub fn visions_of(facts: &[Fact]) -> Visions
    ensures near { All (SeesFrom result.near) facts.now }
    ensures far { All (SeesWithin result.far) facts.now }
{
    let mut visions = Visions::new();
    for fact in facts {
        visions = visions.widened(&Some(*fact));
    }
    visions
}
