//! What a system is told, as a plain list of facts, and what that says: each list, count, label and answer goes over all of it.
//! It shares nothing with the systems but the words in which they are told and asked.

ghost use Rattle.std.specs.Prelude.{◌<◌};

use crate::tests::lending::{DEPTH, IDS, WIDTH, mixed};
use sim_base::{Cell, Fixed, Global, Land, OutOfMemory, Point, Rect};
use sim_system::{Ask, Fact, Kind, Note};

// The cells of the battle's ground, in a row of it, and in all.
const ROW: usize = 24;

const CELLS: usize = 384;

/// A land and facts, ascending by id. What there is no memory for is lost, which a comparison shows.
#[derive(Drop)]
pub struct Plain {
    kind: Kind,
    keeps: bool,
    land: Option<Land>,
    facts: Vec<Fact>,
}

impl Plain {
    /// It was told nothing yet, and speaks for a system of this kind: where it is a range, for one that keeps whom each sees, or
    /// for one that looks.
    pub fn new(alloc: Global, kind: Kind, keeps: bool) -> Plain {
        Plain {
            kind,
            keeps,
            land: None,
            facts: Vec::new(alloc),
        }
    }

    /// Forgets all.
    pub fn clear(&mut self) {
        self.land = None;
        self.facts.clear();
    }

    /// Takes these facts.
    pub fn build(&mut self, land: &Land, facts: &[Fact]) -> Result<(), OutOfMemory> {
        self.clear();
        self.facts.extend_from_slice(facts)?;
        self.land = Some(Land {
            width: land.width,
            depth: land.depth,
            closed: land.closed.copy()?,
            masks: land.masks.copy()?,
        });
        Ok(())
    }

    /// Takes up a note.
    pub fn hear(&mut self, note: &Note) {
        match note {
            Note::Born { fact } => {
                let _ = self.facts.push(*fact);
            }
            Note::Gone { fact } => {
                let id = fact.id;
                self.facts.retain(|other| other.id != id);
            }
            _ => {}
        }
        for fact in self.facts.iter_mut() {
            *fact = after(*fact, note);
        }
    }

    /// All that such a system lends, mixed into one number.
    pub fn lent(&self) -> u64 {
        match self.kind {
            Kind::Ground => self.ground(),
            Kind::Range => self.range(),
            Kind::Watch => self.watch(),
            Kind::Census => self.census(),
        }
    }

    /// The answer to a question that is a filter or a count, mixed into one number.
    pub fn answer(&self, ask: &Ask) -> Option<u64> {
        match ask {
            Ask::Open { cell } => Some(mixed(0, u32::from(self.layers(*cell) == 0))),
            Ask::Free { rect } => Some(mixed(0, u32::from(self.is_free(rect)))),
            Ask::Count { owner } => Some(mixed(0, self.count(*owner))),
            Ask::Way { .. } | Ask::Spot { .. } => None,
            _ => Some(self.mixed_many(0, ask)),
        }
    }

    // How many rectangles cover a cell.
    fn layers(&self, cell: Cell) -> u32 {
        let mut count = 0u32;
        if let Some(land) = &self.land {
            for rect in land.closed.as_slice() {
                count = count.wrapping_add(u32::from(covers(rect, cell)));
            }
        }
        for fact in &self.facts {
            if let Some(rect) = fact.rect {
                count = count.wrapping_add(u32::from(covers(&rect, cell)));
            }
        }
        count
    }

    // Whether a rectangle lies on the ground and none covers a cell of it.
    fn is_free(&self, rect: &Rect) -> bool {
        for z in 0..DEPTH {
            for x in 0..WIDTH {
                let cell = Cell { x, z };
                if covers(rect, cell) && self.layers(cell) != 0 {
                    return false;
                }
            }
        }
        lies_on_ground(rect)
    }

    // The layers of all cells, and their labels.
    fn ground(&self) -> u64 {
        if self.land.is_none() {
            return 0;
        }
        let mut sum = 0;
        for z in 0..DEPTH {
            for x in 0..WIDTH {
                sum = mixed(sum, self.layers(Cell { x, z }));
            }
        }
        for label in self.labels() {
            sum = mixed(sum, label);
        }
        sum
    }

    // The label of each open cell, the least place of those that are joined to it. Each round takes it one step further.
    fn labels(&self) -> [u32; CELLS] {
        let mut labels = [u32::MAX; CELLS];
        for z in 0..DEPTH {
            for x in 0..WIDTH {
                let place = usize::from(z) * ROW + usize::from(x);
                if self.layers(Cell { x, z }) == 0 {
                    labels[place] = place as u32;
                }
            }
        }
        for _ in 0..CELLS {
            spread(&mut labels);
        }
        labels
    }

    // Who stands in each bucket of 16 by 16 cells, and whom each sees.
    fn range(&self) -> u64 {
        let mut sum = 0;
        for bz in 0..16 {
            for bx in 0..16 {
                sum = self.mixed_bucket(sum, bx, bz);
            }
        }
        for id in 0..IDS {
            if self.keeps && self.vision(id).is_some() {
                sum = self.mixed_many(sum, &Ask::Seen { id });
            }
        }
        sum
    }

    // Who stands in a bucket.
    fn mixed_bucket(&self, sum: u64, bx: i32, bz: i32) -> u64 {
        let mut sum = mixed(sum, u32::MAX);
        for fact in &self.facts {
            let is_kept = fact.health || fact.vision.is_some();
            if is_kept && is_in(fact.at.x, bx) && is_in(fact.at.z, bz) {
                sum = mixed(sum, fact.id);
            }
        }
        sum
    }

    // Who aims at each id.
    fn watch(&self) -> u64 {
        let mut sum = 0;
        for id in 0..IDS {
            sum = self.mixed_many(sum, &Ask::Watchers { id });
        }
        sum
    }

    // How many each owner has.
    fn census(&self) -> u64 {
        let mut sum = mixed(0, u32::MAX);
        for owner in 0..9 {
            sum = mixed(sum, self.count(owner));
        }
        sum
    }

    // How many an owner has.
    fn count(&self, owner: u8) -> u32 {
        let mut count = 0u32;
        for fact in &self.facts {
            count = count.wrapping_add(u32::from(fact.owner == owner));
        }
        count
    }

    // Those whom a question is about.
    fn mixed_many(&self, sum: u64, ask: &Ask) -> u64 {
        let mut sum = mixed(sum, u32::MAX);
        for fact in &self.facts {
            if self.is_one(ask, fact) {
                sum = mixed(sum, fact.id);
            }
        }
        sum
    }

    // Whether an entity is one of them.
    fn is_one(&self, ask: &Ask, fact: &Fact) -> bool {
        match ask {
            Ask::Within { at, radius, mask } => {
                fact.health && has(u32::from(*mask), fact.owner) && is_near(&fact.at, at, *radius)
            }
            Ask::Seen { id } => self.sees(*id, fact),
            Ask::Watchers { id } => *id != 0 && fact.target == *id,
            _ => false,
        }
    }

    // Whether an entity sees another one.
    fn sees(&self, id: u32, fact: &Fact) -> bool {
        match self.vision(id) {
            Some((at, vision, mask)) => {
                fact.id != id
                    && fact.health
                    && has(mask, fact.owner)
                    && is_near(&fact.at, &at, vision)
            }
            None => false,
        }
    }

    // From where, how far, and whom an entity can see, if it can attack.
    fn vision(&self, id: u32) -> Option<(Point, Fixed, u32)> {
        let land = self.land.as_ref()?;
        let watcher = self.facts.iter().find(|fact| fact.id == id)?;
        let mask = land.masks.as_slice().get(usize::from(watcher.owner))?;
        Some((watcher.at, watcher.vision?, *mask))
    }
}

// A fact after a note.
fn after(fact: Fact, note: &Note) -> Fact {
    match note {
        Note::Moved { id, to, .. } if *id == fact.id => Fact { at: *to, ..fact },
        Note::Owned { id, to, .. } if *id == fact.id => Fact { owner: *to, ..fact },
        Note::Aimed { id, to, .. } if *id == fact.id => Fact {
            target: *to,
            ..fact
        },
        _ => fact,
    }
}

// Whether a rectangle covers a cell.
fn covers(rect: &Rect, cell: Cell) -> bool {
    let (x, z) = (i32::from(cell.x), i32::from(cell.z));
    rect.x0 <= x && x <= rect.x1 && rect.z0 <= z && z <= rect.z1
}

// Whether a rectangle lies on the battle's ground.
fn lies_on_ground(rect: &Rect) -> bool {
    rect.x0 >= 0 && rect.z0 >= 0 && rect.x1 < i32::from(WIDTH) && rect.z1 < i32::from(DEPTH)
}

// Whether a mask has the bit of an owner.
fn has(mask: u32, owner: u8) -> bool {
    mask.checked_shr(u32::from(owner)).unwrap_or(0) % 2 == 1
}

// Whether two points are at most a radius apart.
fn is_near(p: &Point, q: &Point, radius: Fixed) -> bool {
    let x = u64::from(p.x.raw().abs_diff(q.x.raw()));
    let z = u64::from(p.z.raw().abs_diff(q.z.raw()));
    let reach = u64::from(radius.raw().unsigned_abs());
    x.saturating_mul(x).saturating_add(z.saturating_mul(z)) <= reach.saturating_mul(reach)
}

// Whether a number lies in 16 rows, or columns, of cells.
fn is_in(number: Fixed, part: i32) -> bool {
    number.raw() / 1_048_576 == part
}

// Takes the least label of each open cell's neighbours, where it is less.
fn spread(labels: &mut [u32; CELLS]) {
    for place in 0..CELLS {
        if labels[place] != u32::MAX {
            labels[place] = least(labels, place);
        }
    }
}

// The least label of a cell and of those to the east, north, west and south.
fn least(labels: &[u32; CELLS], place: usize) -> u32
    requires { place < CELLS }
{
    let mut label = labels[place];
    if place % ROW > 0 {
        label = label.min(labels[place - 1]);
    }
    if place % ROW < ROW - 1 {
        label = label.min(labels[place + 1]);
    }
    if place >= ROW {
        label = label.min(labels[place - ROW]);
    }
    if place < CELLS - ROW {
        label = label.min(labels[place + ROW]);
    }
    label
}
