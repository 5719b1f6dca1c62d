//! A note in two steps: all that may want memory is made ready, and then it is taken up without any. So a note for which no
//! memory is found leaves all as it was.

ghost use Rattle.std.specs.Prelude.{IfOk, IfSome, IsSome, IsTrue, length, OnOk, Some, vec_capacity, vec_len, ℕ, ◌<◌, ◌≡◌};
ghost use Rattle.sim_range.specs.Sights.{AreKept, AreReady, Become, MayMakeReady};
ghost use Rattle.sim_range.specs.{Buckets.AreBuckets, Buckets.ArePlaced, Buckets.HaveRoom, Common.IsHeld, Common.Land, Common.fact_with, Common.with_only};

use crate::bucket::Bucket;
use crate::buckets::{buckets_of, make_room};
use crate::crowd::{Crowd, Held};
use crate::plan::Plan;
use crate::sight::Sight;
use crate::sights::{make_rooms, put, sights_of, turn_all};
use crate::visions::{Visions, visions_of};
use sim_base::{Global, OutOfMemory};
use sim_fact_lists::Kept;
use sim_system::Fact;

/// What all see, how far they do, and what the note that is taken up changes of it; nothing, unless it is kept.
#[derive(Drop)]
pub struct Sights {
    pub keeps: bool,
    pub all: Vec<Sight>,
    pub visions: Visions,
    pub plan: Plan,
}

impl Sights {
    /// Nobody sees. It takes no memory yet.
    pub fn new(alloc: Global, keeps: bool) -> Sights
        ensures { result.keeps ≡ keeps }
    {
        Sights {
            keeps,
            all: Vec::new(alloc),
            visions: Visions::new(),
            plan: Plan::new(alloc),
        }
    }

    // Makes room for what a note changes of what is seen, and finds it.
    fn make_ready<'a>(
        &mut self,
        kept: &'a Kept,
        buckets: &'a [Bucket],
        before: &Option<Fact>,
        after: &Option<Fact>,
    ) -> Result<(), OutOfMemory>
        requires { MayMakeReady kept.now.land kept.now.facts.items buckets.now before.now after.now self.old }
        ensures keeps { self.new.keeps ≡ self.old.keeps }
        ensures kept { IsTrue self.old.keeps → AreKept kept.now.land kept.now.facts.items self.new }
        ensures ready { OnOk result (IsTrue self.old.keeps → AreReady kept.now.land kept.now.facts.items before.now after.now self.new) }
    {
        if !self.keeps {
            return Ok(());
        }
        let Some(land) = &kept.land else {
            unreachable!()
        };
        let facts = kept.facts.as_slice();
        let held = Held { land, facts };
        self.visions = self.visions.widened(after);
        let crowd = Crowd { held, buckets };
        let plan = &mut self.plan;
        plan.find(&crowd, &self.visions, before, after)?;
        plan.find_own(&held, self.all.as_slice(), after)?;
        make_rooms(&mut self.all, &held, self.plan.watchers.as_slice())?;
        self.all.reserve(1)?;
        Ok(())
    }

    /// Changes what all see as what is kept of an entity has changed, for which all was made ready.
    pub fn take_up(&mut self, kept: &Kept, id: u32, after: &Option<Fact>)
        requires built { IsSome kept.now.land }
        requires named { IfSome after.now (λ fact. fact.id ≡ id) }
        requires after { (l : Land) → kept.now.land ≡ Some l → IfSome after.now (IsHeld l) }
        requires kept { IsTrue self.old.keeps → AreKept kept.now.land kept.now.facts.items self.old }
        requires ready { IsTrue self.old.keeps → AreReady kept.now.land kept.now.facts.items (fact_with kept.now.facts.items id) after.now self.old }
        ensures keeps { self.new.keeps ≡ self.old.keeps }
        ensures kept { IsTrue self.old.keeps → AreKept kept.now.land (with_only id after.now kept.now.facts.items) self.new }
    {
        if !self.keeps {
            return;
        }
        let Some(land) = &kept.land else {
            unreachable!()
        };
        let facts = kept.facts.as_slice();
        let held = Held { land, facts };
        turn_all(
            &mut self.all,
            &held,
            self.plan.watchers.as_slice(),
            id,
            after,
        );
        put(&mut self.all, &held, id, after, &mut self.plan.own);
    }
}

// What all of these facts see, if it is kept.
fn sights_for(alloc: Global, keeps: bool, crowd: &Crowd<'_>) -> Result<Sights, OutOfMemory>
    ensures keeps { IfOk result (λ sights. sights.keeps ≡ keeps) }
    ensures kept { IfOk result (λ sights. IsTrue keeps → AreKept (Some crowd.now.held.land.now) crowd.now.held.facts.now sights) }
{
    if !keeps {
        return Ok(Sights::new(alloc, keeps));
    }
    let all = sights_of(alloc, crowd)?;
    let visions = visions_of(crowd.held.facts);
    let plan = Plan::new(alloc);
    Ok(Sights {
        keeps,
        all,
        visions,
        plan,
    })
}

/// The buckets and the sights of facts.
#[derive(Drop)]
pub struct Built {
    pub buckets: Vec<Bucket>,
    pub sights: Sights,
}

/// Those of these facts: the sights, if they are kept.
pub fn built_of(alloc: Global, keeps: bool, held: &Held<'_>) -> Result<Built, OutOfMemory>
    requires { ArePlaced held.now.facts.now }
    ensures whole { IfOk result (λ built. length built.buckets.items ≡ 256) }
    ensures buckets { IfOk result (λ built. AreBuckets held.now.facts.now built.buckets.items) }
    ensures keeps { IfOk result (λ built. built.sights.keeps ≡ keeps) }
    ensures kept { IfOk result (λ built. IsTrue keeps → AreKept (Some held.now.land.now) held.now.facts.now built.sights) }
{
    let buckets = buckets_of(alloc, held.facts)?;
    let crowd = Crowd {
        held: *held,
        buckets: buckets.as_slice(),
    };
    let sights = sights_for(alloc, keeps, &crowd)?;
    Ok(Built { buckets, sights })
}

/// Makes all room that is wanted where what is kept of an entity changes, and finds what that changes of what is seen.
pub fn make_ready(
    kept: &mut Kept,
    buckets: &mut Vec<Bucket>,
    sights: &mut Sights,
    before: &Option<Fact>,
    after: &Option<Fact>,
) -> Result<(), OutOfMemory>
    requires { MayMakeReady kept.old.land kept.old.facts.items buckets.old.items before.now after.now sights.old }
    ensures land { kept.new.land ≡ kept.old.land }
    ensures facts { kept.new.facts.items ≡ kept.old.facts.items }
    ensures rebuilds { kept.new.rebuilds ≡ kept.old.rebuilds }
    ensures buckets { Become (λ k facts. facts) buckets.old.items buckets.new.items }
    ensures keeps { sights.new.keeps ≡ sights.old.keeps }
    ensures kept { IsTrue sights.old.keeps → AreKept kept.old.land kept.old.facts.items sights.new }
    ensures ready { OnOk result (IsTrue sights.old.keeps → AreReady kept.old.land kept.old.facts.items before.now after.now sights.new) }
    ensures facts_room { OnOk result (vec_len kept.new.facts < vec_capacity kept.new.facts) }
    ensures buckets_room { OnOk result (HaveRoom after.now buckets.new.items) }
{
    sights.make_ready(kept, buckets.as_slice(), before, after)?;
    make_room(buckets, after)?;
    kept.make_room()?;
    Ok(())
}
