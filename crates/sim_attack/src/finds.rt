//! Whom fighters have found in a phase, so that of those who stand together one looks for all.
//!
//! Rows of one owner that stand at one point and see equally far have the same nearest enemy, since nobody is his own
//! enemy. What one of them finds has a place that owner and point give. Another find may take that place: then the first
//! is looked for again.

ghost use Rattle.std.specs.Prelude.{◌≡◌, ◌<◌, [], length, OnOk, OnErr, slice_index_or, slice_set, Some, None};
ghost use Rattle.sim_attack.specs.Finds.{filled, find_places, is_shared as is_shared_by, place_for, shared};

use sim_base::{Fixed, Global, OutOfMemory, Point, Row};
use sim_plans::same_point;

// How many finds are kept at most.
const PLACES: usize = 256;

/// A find: for whose row, from where and how far was looked, and the nearest enemy, or 0.
#[derive(Clone, Copy, Debug)]
pub struct Find {
    pub owner: u8,
    pub at: Point,
    pub vision: Fixed,
    pub target: u32,
}

/// The finds that are kept, each at its place. They take no memory before the first is kept.
#[derive(Drop)]
pub struct Finds {
    alloc: Global,
    kept: Vec<Option<Find>>,
    ghost whole: { 0 < length kept.items → length kept.items ≡ find_places },
}

impl Finds {
    /// Nothing has been found.
    pub fn new(alloc: Global) -> Finds
        ensures { result.kept.items ≡ [] }
    {
        Finds {
            alloc,
            kept: Vec::new(alloc),
        }
    }

    /// The target of a row that sees so far, where the find at its place is one for such a row.
    pub fn target_for(&self, row: &Row, vision: Fixed) -> Option<u32>
        ensures { result ≡ shared row.now vision (slice_index_or self.now.kept.items (place_for row.now.owner row.now.at) None) }
    {
        match self.kept.as_slice().get(place_of(row.owner, &row.at)) {
            Some(Some(find)) if is_shared(find, row, vision) => Some(find.target),
            _ => None,
        }
    }

    // Makes the places, if there are none yet.
    fn make_places(&mut self) -> Result<(), OutOfMemory>
        ensures ok { OnOk result (self.new.kept.items ≡ filled self.old.kept.items) }
        ensures err { OnErr result (self.new.kept.items ≡ self.old.kept.items) }
    {
        if !self.kept.is_empty() {
            return Ok(());
        }
        self.kept = vec![in self.alloc; None; PLACES]?;
        Ok(())
    }

    /// Keeps the target of a row that sees so far.
    pub fn keep(&mut self, row: &Row, vision: Fixed, target: u32) -> Result<(), OutOfMemory>
        ensures ok { OnOk result (self.new.kept.items ≡ slice_set (filled self.old.kept.items) (place_for row.now.owner row.now.at)
            (Some (record { owner = row.now.owner; at = row.now.at; vision = vision; target = target }))) }
        ensures err { OnErr result (self.new.kept.items ≡ self.old.kept.items) }
    {
        self.make_places()?;
        self.kept[place_of(row.owner, &row.at)] = Some(Find {
            owner: row.owner,
            at: row.at,
            vision,
            target,
        });
        Ok(())
    }
}

// Whether a row that sees so far has this find.
fn is_shared(find: &Find, row: &Row, vision: Fixed) -> bool
    ensures { result ≡ is_shared_by row.now vision find.now }
{
    find.owner == row.owner && same_point(&find.at, &row.at) && find.vision.raw() == vision.raw()
}

// The place of the finds for rows of an owner at a point. The two factors are odd, so that points which lie side by side
// have places of their own.
fn place_of(owner: u8, at: &Point) -> usize
    ensures value { result ≡ place_for owner at.now }
    ensures small { result < find_places }
{
    let x = u64::from(at.x.raw().unsigned_abs());
    let z = u64::from(at.z.raw().unsigned_abs());
    let mixed = (x * 40503 + z * 30011) / 65536 + u64::from(owner);
    (mixed % 256) as usize
}
