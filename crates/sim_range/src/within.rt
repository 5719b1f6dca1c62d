//! Who is near a point: looked for in the buckets about it, or among all where these would be many.

ghost use Rattle.sim_range.specs.{Buckets.bucket_at, Common.{in_mask as in_mask_of, is_inside, is_near as is_near_of, IsHeld, IsPlaced, size_of, within_among}};
ghost use Rattle.std.specs.Prelude.{All, IfOk, IsTrue, OnOk, pos, unsigned_abs, ℤ, ◌&&◌, ◌++◌, ◌-ℤ◌, ◌/◌, ◌<◌, ◌≡◌, ◌≤ℤ◌, ◌≤◌};

use crate::crowd::{Crowd, Held};
use sim_base::{Fixed, Global, Ids, OutOfMemory, Point, square};
use sim_system::Fact;

/// Whether the mask has the bit of this owner.
pub fn in_mask(mask: u32, owner: u8) -> bool
    requires { owner < 32 }
    ensures { result ≡ in_mask_of mask owner }
{
    (mask >> owner) % 2 == 1
}

// How far a radius reaches, in raws.
fn reach_of(radius: Fixed) -> u32
    ensures { result ≡ unsigned_abs radius }
{
    radius.raw().unsigned_abs()
}

// Whether two points are at most a radius apart.
fn is_near(p: &Point, q: &Point, radius: Fixed) -> bool
    requires first { IsPlaced p.now }
    requires second { IsPlaced q.now }
    ensures { result ≡ is_near_of p.now q.now radius }
{
    let reach = u64::from(reach_of(radius));
    square(*p, *q) <= reach * reach
}

impl Held<'_> {
    /// Whether an entity has health, has a masked owner, and is near a point.
    pub fn is_within(&self, fact: &Fact, at: &Point, radius: Fixed, mask: u32) -> bool
        requires held { IsHeld self.now.land.now fact.now }
        requires at { IsTrue (is_inside (size_of self.now.land.now) at.now) }
        ensures { result ≡ (fact.now.health && in_mask_of mask fact.now.owner && is_near_of fact.now.at at.now radius) }
    {
        fact.health && in_mask(mask, fact.owner) && is_near(&fact.at, at, radius)
    }
}

/// A circle about a point, and the mask of the owners whose entities are looked for in it.
#[derive(Clone, Copy)]
pub struct Circle {
    pub at: Point,
    pub radius: Fixed,
    pub mask: u32,
}

// Adds those of these facts that are looked for in a circle.
fn push_near(
    ids: &mut Vec<u32>,
    held: &Held<'_>,
    facts: &[Fact],
    circle: &Circle,
) -> Result<(), OutOfMemory>
    requires held { All (IsHeld held.now.land.now) facts.now }
    requires at { IsTrue (is_inside (size_of held.now.land.now) circle.now.at) }
    ensures { OnOk result (ids.new.items ≡ ids.old.items ++ within_among facts.now circle.now.at circle.now.radius circle.now.mask) }
{
    for fact in facts {
        if held.is_within(fact, &circle.at, circle.radius, circle.mask) {
            ids.push(fact.id)?;
        }
    }
    Ok(())
}

// Whether 16 rows, or columns, of cells come within reach of a number.
fn is_reached(part: usize, from: Fixed, reach: u32) -> bool
    requires { part < 16 }
    ensures { (other : ℤ) → pos 0 ≤ℤ other → unsigned_abs other / 65536 / 16 ≡ part → unsigned_abs (other -ℤ from) ≤ reach → IsTrue result }
{
    let first = part as i64 * 1_048_576;
    let raw = i64::from(from.raw());
    let reach = i64::from(reach);
    raw - reach < first + 1_048_576 && first <= raw + reach
}

// Whether a bucket comes within reach of a point, by rows and by columns.
fn touches(number: usize, at: &Point, reach: u32) -> bool
    requires { number < 256 }
    ensures { (p : Point) → IsPlaced p → bucket_at p ≡ number → unsigned_abs (p.x -ℤ at.now.x) ≤ reach → unsigned_abs (p.z -ℤ at.now.z) ≤ reach
        → IsTrue result }
{
    is_reached(number % 16, at.x, reach) && is_reached(number / 16, at.z, reach)
}

impl Crowd<'_> {
    // Whether so many stand in the buckets about a point, a quarter of all, that it is quicker to go over all facts. Either
    // answer leads to the same ids.
    fn is_crowded(&self, at: &Point, reach: u32) -> bool {
        let mut count: usize = 0;
        for (number, bucket) in self.buckets.iter().enumerate() {
            if touches(number, at, reach) {
                count = count.saturating_add(bucket.facts.len());
            }
        }
        count > self.held.facts.len() / 4
    }

    /// The entities with health of the masked owners that are in a circle.
    pub fn within(&self, alloc: Global, circle: &Circle) -> Result<Ids, OutOfMemory>
        requires at { IsTrue (is_inside (size_of self.now.held.land.now) circle.now.at) }
        ensures { IfOk result (λ ids. ids ≡ within_among self.now.held.facts.now circle.now.at circle.now.radius circle.now.mask) }
    {
        let reach = reach_of(circle.radius);
        let buckets = self.buckets;
        let mut ids = Vec::new(alloc);
        if self.is_crowded(&circle.at, reach) {
            push_near(&mut ids, &self.held, self.held.facts, circle)?;
            return Ok(Ids::from_items(ids));
        }
        for (number, bucket) in buckets.iter().enumerate() {
            if touches(number, &circle.at, reach) {
                push_near(&mut ids, &self.held, bucket.facts.as_slice(), circle)?;
            }
        }
        ids.sort_unstable();
        Ok(Ids::from_items(ids))
    }
}
