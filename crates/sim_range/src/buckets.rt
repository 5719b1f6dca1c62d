//! Who stands in which bucket of 16 by 16 cells: 256 buckets by their numbers.

ghost use Rattle.std.specs.Prelude.{[], IfOk, IfSome, IsSome, length, OnOk, slice_index_or, ℕ, ◌<◌, ◌≡◌};
ghost use Rattle.sim_range.specs.Buckets.{AreBuckets, ArePlaced, HasRoom, HaveRoom, bucket_at, changed_at, facts_at, is_in, left_at};
ghost use Rattle.sim_range.specs.{Common.Ascend, Common.IsPlaced, Common.with_only, Sights.Become, Sights.MayMove};

use crate::bucket::Bucket;
use sim_base::{Global, OutOfMemory, Point, cell_of};
use sim_system::Fact;

/// The number of the bucket in which a point lies.
pub fn bucket_of(at: Point) -> usize
    requires { IsPlaced at }
    ensures number { result ≡ bucket_at at }
    ensures below { result < 256 }
{
    let cell = cell_of(at);
    usize::from(cell.z / 16) * 16 + usize::from(cell.x / 16)
}

/// Those of these facts.
pub fn buckets_of(alloc: Global, facts: &[Fact]) -> Result<Vec<Bucket>, OutOfMemory>
    requires ascending { Ascend facts.now }
    requires placed { ArePlaced facts.now }
    ensures whole { IfOk result (λ all. length all.items ≡ 256) }
    ensures each { IfOk result (λ all. AreBuckets facts.now all.items) }
{
    let mut all = Vec::new(alloc);
    for _ in 0..256usize {
        all.push(Bucket::new(alloc))?;
    }
    for fact in facts {
        let part = Some(*fact);
        make_room(&mut all, &part)?;
        change(&mut all, fact.id, &None, &part);
    }
    Ok(all)
}

/// Makes room for what is kept of an entity, in its bucket.
pub fn make_room(buckets: &mut Vec<Bucket>, part: &Option<Fact>) -> Result<(), OutOfMemory>
    requires whole { length buckets.old.items ≡ 256 }
    requires placed { IfSome part.now (λ fact. IsPlaced fact.at) }
    ensures still { Become (λ k facts. facts) buckets.old.items buckets.new.items }
    ensures room { OnOk result (HaveRoom part.now buckets.new.items) }
{
    if let Some(fact) = part {
        buckets[bucket_of(fact.at)].make_room()?;
    }
    Ok(())
}

// Whether this is kept in the bucket.
fn has(part: &Option<Fact>, number: usize) -> bool
    requires { IfSome part.now (λ fact. IsPlaced fact.at) }
    ensures { result ≡ is_in number part.now }
{
    match part {
        Some(fact) => bucket_of(fact.at) == number,
        None => false,
    }
}

// An entity leaves its bucket, if it had one, unless it stays there.
fn leave(buckets: &mut Vec<Bucket>, id: u32, before: &Option<Fact>, after: &Option<Fact>)
    requires { MayMove buckets.old.items before.now after.now }
    ensures left { Become (λ k facts. left_at k id before.now after.now facts) buckets.old.items buckets.new.items }
    ensures room { HaveRoom after.now buckets.new.items }
{
    if let Some(fact) = before {
        let from = bucket_of(fact.at);
        if !has(after, from) {
            buckets[from].put(id, &None);
        }
    }
}

/// Changes the buckets as what is kept of an entity has changed. The room was made before.
pub fn change(buckets: &mut Vec<Bucket>, id: u32, before: &Option<Fact>, after: &Option<Fact>)
    requires moves { MayMove buckets.old.items before.now after.now }
    requires named { IfSome after.now (λ fact. fact.id ≡ id) }
    ensures { Become (λ k facts. changed_at k id before.now after.now facts) buckets.old.items buckets.new.items }
{
    leave(buckets, id, before, after);
    if let Some(fact) = after {
        buckets[bucket_of(fact.at)].put(id, after);
    }
}
