//! What all who look for entities are lent together, so that no call is handed a land, facts and buckets of different moments.

ghost use Rattle.sim_range.specs.{Common.Holds, Sights.AreSorted};

use crate::bucket::Bucket;
use sim_base::Land;
use sim_system::Fact;

/// Facts, and the land on which they are held.
#[derive(Clone, Copy)]
pub struct Held<'a> {
    pub land: &'a Land,
    pub facts: &'a [Fact],
    ghost holds: { Holds land.now facts.now },
}

/// Those who are held on a land, and who of them stands in which bucket.
#[derive(Clone, Copy)]
pub struct Crowd<'a> {
    pub held: Held<'a>,
    pub buckets: &'a [Bucket],
    ghost sorted: { AreSorted held.land.now held.facts.now buckets.now },
}
