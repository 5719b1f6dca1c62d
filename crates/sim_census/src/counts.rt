//! How many entities each owner has: nine numbers, since a match has at most nine owners.

ghost use Rattle.{sim_census.specs.Owners.{AreCounts, is_owned_by}, sim_fact_lists.specs.Changes.{one_if, passes}, sim_system.specs.Meanings.population_among};
ghost use Rattle.std.specs.Prelude.{IfSome, length, slice_index, ℕ, ◌+◌, ◌<◌, ◌≡◌, ◌≤◌};

use sim_system::Fact;

// How many entities an owner has.
fn count(facts: &[Fact], owner: u8) -> u32
    requires { length facts.now ≤ 4096 }
    ensures { result ≡ population_among facts.now owner }
{
    let mut n = 0;
    for fact in facts {
        if fact.owner == owner {
            n += 1;
        }
    }
    n
}

/// The numbers of these entities.
pub fn counts_of(facts: &[Fact]) -> [u32; 9]
    requires { length facts.now ≤ 4096 }
    ensures { AreCounts facts.now result }
{
    let mut counts = [0; 9];
    for owner in 0..9u8 {
        counts[usize::from(owner)] = count(facts, owner);
    }
    counts
}

/// One entity fewer of its owner, if there is one.
pub fn leave(counts: &mut [u32; 9], part: &Option<Fact>)
    requires owner { IfSome part.now (λ fact. fact.owner < 9) }
    requires counted { IfSome part.now (λ fact. 0 < slice_index counts.old fact.owner) }
    ensures { (owner : ℕ) → owner < 9 → slice_index counts.new owner + one_if (passes (is_owned_by owner) part.now) ≡ slice_index counts.old owner }
{
    if let Some(fact) = part {
        counts[usize::from(fact.owner)] -= 1;
    }
}

/// One entity more of its owner, if there is one.
pub fn join(counts: &mut [u32; 9], part: &Option<Fact>)
    requires owner { IfSome part.now (λ fact. fact.owner < 9) }
    requires few { (owner : ℕ) → owner < 9 → slice_index counts.old owner ≤ 4096 }
    ensures { (owner : ℕ) → owner < 9 → slice_index counts.new owner ≡ slice_index counts.old owner + one_if (passes (is_owned_by owner) part.now) }
{
    if let Some(fact) = part {
        counts[usize::from(fact.owner)] += 1;
    }
}
