//! The system: the place, owner, health and vision of each entity, and beside them buckets of ids by place, and whom each
//! entity sees, where that is kept.

ghost use Rattle.std.specs.Prelude.{[], false, IfOk, IfSome, IsSome, IsTrue, length, MatchOption, None, OnErr, OnOk, true, ◌<◌, ◌↔◌, ◌≡◌};
ghost use Rattle.sim_range.specs.{Buckets.AreBuckets, Buckets.ArePlaced, Buckets.in_bucket, Common.AreInRange, Common.Range as RangeKind, Common.seen_among};
ghost use Rattle.sim_range.specs.{Common.IsLand, Common.MayHear, Common.built, Common.cleared, Common.counted, Common.fact_with, Common.told, Sights.AreKept};

use crate::bucket::Bucket;
use crate::buckets::change;
use crate::crowd::{Crowd, Held};
use crate::ready::{Sights, built_of, make_ready};
use crate::within::Circle;
use sim_base::{Global, Ids, Land, OutOfMemory};
use sim_fact_lists::{Kept, id_of, part_after, place_of};
use sim_system::{Answer, Ask, Fact, Kind, Note, System};

/// Keeps place, owner, health and vision of each entity that has health or can attack, and who stands in which bucket. One that
/// was made to look keeps no more; any other also keeps whom each sees.
#[derive(Drop)]
pub struct Range {
    kept: Kept,
    buckets: Vec<Bucket>,
    sights: Sights,
    ghost placed: { ArePlaced kept.facts.items },
    ghost bucketed: { AreBuckets kept.facts.items buckets.items },
    ghost whole: { IsSome kept.land → length buckets.items ≡ 256 },
    ghost bare: { kept.land ≡ None → kept.facts.items ≡ [] },
    ghost seen: { IsTrue sights.keeps → AreKept kept.land kept.facts.items sights },
}

impl Range {
    ghost use Rattle.sim_range.specs.RangeWords.{keeps};

    /// It has no land and no facts, and was never built. It keeps the allocator, and takes no memory yet. It keeps whom each
    /// entity sees, and changes that at each note.
    pub fn new(alloc: Global) -> Range
        ensures meaning { ⟦<Range as System>⟧.meaning result ≡ record { kind = RangeKind; land = None; facts = []; rebuilds = 0 } }
        ensures keeps { keeps result ≡ true }
    {
        Range {
            kept: Kept::new(alloc),
            buckets: Vec::new(alloc),
            sights: Sights::new(alloc, true),
        }
    }

    /// The same, but it looks for those whom an entity sees at each question, and keeps none of them.
    pub fn looking(alloc: Global) -> Range
        ensures meaning { ⟦<Range as System>⟧.meaning result ≡ record { kind = RangeKind; land = None; facts = []; rebuilds = 0 } }
        ensures keeps { keeps result ≡ false }
    {
        Range {
            kept: Kept::new(alloc),
            buckets: Vec::new(alloc),
            sights: Sights::new(alloc, false),
        }
    }

    /// Lends the ids, ascending, of the entities whose cell divided by 16 is this. There are none where it was not built.
    pub fn bucket(&self, bx: u8, bz: u8) -> &[u32]
        requires bx { bx < 16 }
        requires bz { bz < 16 }
        ensures { result.now ≡ in_bucket bx bz (⟦<Range as System>⟧.meaning self.now).facts }
    {
        let number = usize::from(bz) * 16 + usize::from(bx);
        match self.buckets.as_slice().get(number) {
            Some(bucket) => bucket.ids.as_slice(),
            None => &[],
        }
    }

    /// Lends the ids, ascending, of the enemies that an entity sees. There are none to lend, not even an empty list, of one
    /// that cannot attack or is not kept, where it was not built, and where it looks at each question.
    pub fn kept(&self, id: u32) -> Option<&[u32]>
        ensures ids { let m = ⟦<Range as System>⟧.meaning self.now in
            IfSome result (λ ids. MatchOption m.land ⊥ (λ land. ids.now ≡ seen_among land m.facts (fact_with m.facts id))) }
        ensures when { let m = ⟦<Range as System>⟧.meaning self.now in
            IsTrue (keeps self.now) → (IsSome result ↔ MatchOption (fact_with m.facts id) ⊥ (λ fact. IsSome fact.vision)) }
        ensures looking { keeps self.now ≡ false → result ≡ None }
    {
        if !self.sights.keeps {
            return None;
        }
        let Ok(at) = place_of(self.kept.facts.as_slice(), id) else {
            return None;
        };
        if self.kept.facts[at].vision.is_none() {
            return None;
        }
        Some(self.sights.all[at].ids.as_slice())
    }

    // Lends what is asked of.
    #[inline(always)]
    fn crowd_on<'a>(&'a self, land: &'a Land) -> Crowd<'a>
        requires { self.now.kept.land ≡ Some land.now }
        ensures land { result.held.land.now ≡ land.now }
        ensures facts { result.held.facts.now ≡ self.now.kept.facts.items }
        ensures buckets { result.buckets.now ≡ self.now.buckets.items }
    {
        Crowd {
            held: Held {
                land,
                facts: self.kept.facts.as_slice(),
            },
            buckets: self.buckets.as_slice(),
        }
    }

    // Whom an entity sees: a list of what is lent of it, or looked for.
    fn seen_by(&self, land: &Land, id: u32) -> Result<Ids, OutOfMemory>
        requires land { self.now.kept.land ≡ Some land.now }
        requires sees { MatchOption (fact_with self.now.kept.facts.items id) ⊥ (λ fact. IsSome fact.vision) }
        ensures { IfOk result (λ ids. ids ≡ seen_among land.now self.now.kept.facts.items (fact_with self.now.kept.facts.items id)) }
    {
        let alloc = self.kept.alloc;
        match self.kept(id) {
            Some(ids) => Ok(Ids::from_items(Vec::from_slice(alloc, ids)?)),
            None => self.crowd_on(land).seen(alloc, id),
        }
    }
}

impl System for Range {
    ghost use Rattle.sim_range.specs.RangeWords.{keeps};

    ghost meaning = { λ s. record { kind = RangeKind; land = s.kept.land; facts = s.kept.facts.items; rebuilds = s.kept.rebuilds } };

    fn kind(&self) -> Kind {
        Kind::Range
    }

    fn clear(&mut self)
        ensures meaning { ⟦<Range as System>⟧.meaning self.new ≡ cleared (⟦<Range as System>⟧.meaning self.old) }
        ensures keeps { keeps self.new ≡ keeps self.old }
    {
        self.kept.clear();
        self.buckets = Vec::new(self.kept.alloc);
        self.sights = Sights::new(self.kept.alloc, self.sights.keeps);
    }

    fn rebuild(&mut self, land: &Land, facts: &[Fact]) -> Result<(), OutOfMemory>
        requires land { IsLand land.now }
        requires facts { AreInRange land.now facts.now }
        ensures ok { OnOk result (⟦<Range as System>⟧.meaning self.new ≡ counted (built land.now facts.now (⟦<Range as System>⟧.meaning self.old))) }
        ensures err { OnErr result (⟦<Range as System>⟧.meaning self.new ≡ counted (cleared (⟦<Range as System>⟧.meaning self.old))) }
        ensures keeps { keeps self.new ≡ keeps self.old }
    {
        self.buckets = Vec::new(self.kept.alloc);
        self.sights = Sights::new(self.kept.alloc, self.sights.keeps);
        self.kept.rebuild(Kind::Range, land, facts)?;
        let held = Held {
            land,
            facts: self.kept.facts.as_slice(),
        };
        match built_of(self.kept.alloc, self.sights.keeps, &held) {
            Ok(built) => {
                self.buckets = built.buckets;
                self.sights = built.sights;
            }
            Err(error) => {
                self.kept.clear();
                return Err(error);
            }
        }
        Ok(())
    }

    fn on(&mut self, note: &Note) -> Result<(), OutOfMemory>
        requires { MayHear (⟦<Range as System>⟧.meaning self.old) note.now }
        ensures ok { OnOk result (⟦<Range as System>⟧.meaning self.new ≡ told (⟦<Range as System>⟧.meaning self.old) note.now) }
        ensures err { OnErr result (⟦<Range as System>⟧.meaning self.new ≡ ⟦<Range as System>⟧.meaning self.old) }
        ensures keeps { keeps self.new ≡ keeps self.old }
    {
        let id = id_of(note);
        let before = self.kept.find(id);
        let after = part_after(Kind::Range, before, note);
        make_ready(
            &mut self.kept,
            &mut self.buckets,
            &mut self.sights,
            &before,
            &after,
        )?;
        self.sights.take_up(&self.kept, id, &after);
        self.kept.on(Kind::Range, note)?;
        change(&mut self.buckets, id, &before, &after);
        Ok(())
    }

    fn ask(&self, ask: &Ask) -> Result<Answer, OutOfMemory> {
        match (&self.kept.land, ask) {
            (Some(land), Ask::Within { at, radius, mask }) => {
                let circle = Circle {
                    at: *at,
                    radius: *radius,
                    mask: u32::from(*mask),
                };
                Ok(Answer::Many {
                    ids: self.crowd_on(land).within(self.kept.alloc, &circle)?,
                })
            }
            (Some(land), Ask::Seen { id }) => Ok(Answer::Many {
                ids: self.seen_by(land, *id)?,
            }),
            _ => unreachable!(),
        }
    }

    fn rebuilds(&self) -> u64 {
        self.kept.rebuilds
    }
}
