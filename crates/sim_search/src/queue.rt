//! The cells that wait, in a ring of buckets, each of which holds those of one key: the sum of cost and estimate.

ghost use Rattle.{sim_grid.specs.Grids.IsSpot, sim_search.specs.{Common.IsOnGround, Queues.{Begins, bucket_in, cost_in, Empties, ground_of, is_lower_than}}};
ghost use Rattle.{sim_search.specs.Queues.{IsBlank, IsLowered, Lowers, place_in, size_of, taken_in, Takes}, std.specs.Prelude.false};
ghost use Rattle.std.specs.Prelude.{IfOk, IsTrue, None, OnOk, replicate, slice_index_or, Some, true, vec_len, ℕ, [], ◌%◌, ◌*◌, ◌+◌, ◌-◌, ◌<◌, ◌^◌, ◌↔◌, ◌≡◌};

use crate::entry::Entry;
use crate::origin::Origin;
use crate::{Costs, Guide, Search};
use sim_base::{Cell, Global, Items, OutOfMemory};
use sim_grid::Spot;
use std::mem;

// How many buckets there are. The keys of the cells that wait differ by less.
const RING: u32 = 32;

// The bucket of a key.
fn bucket(key: u32) -> usize
    ensures is { result ≡ key % 32 }
    ensures below { result < 32 }
{
    (key % RING) as usize
}

// Empty buckets.
fn empty_ring(alloc: Global) -> Result<Vec<Items<Cell>>, OutOfMemory>
    ensures { IfOk result (λ v. v.items ≡ replicate 32 []) }
{
    let mut buckets = Vec::new(alloc);
    for _ in 0..RING {
        buckets.push(Items::new(alloc))?;
    }
    Ok(buckets)
}

// Entries of no search.
fn no_entries(alloc: Global, count: usize) -> Result<Vec<Entry>, OutOfMemory>
    ensures { IfOk result (λ v. v.items ≡ replicate count (record { stamp = 0; cost = 0 })) }
{
    Ok(vec![in alloc; Entry { stamp: 0, cost: 0 }; count]?)
}

// Marks of no search.
fn no_marks(alloc: Global, count: usize) -> Result<Vec<u32>, OutOfMemory>
    ensures { IfOk result (λ v. v.items ≡ replicate count 0) }
{
    Ok(vec![in alloc; 0; count]?)
}

// Rooms for a search from this start.
fn new_rooms(alloc: Global, origin: Origin) -> Result<Search, OutOfMemory>
    ensures { IfOk result (λ s. IsBlank (ground_of origin) origin.start s) }
{
    let Origin {
        width,
        depth,
        start,
    } = origin;
    let count = usize::from(width) * usize::from(depth);
    let items = no_entries(alloc, count)?;
    let taken = no_marks(alloc, count)?;
    let buckets = empty_ring(alloc)?;
    let costs = Costs {
        width,
        depth,
        stamp: 1,
        items,
    };
    Ok(Search {
        start,
        costs,
        taken,
        buckets,
    })
}

// Empties a bucket, which keeps its room.
fn empty(alloc: Global, bucket: &mut Items<Cell>)
    ensures { bucket.new ≡ [] }
{
    let cells = mem::replace(bucket, Items::new(alloc));
    *bucket = emptied(cells);
}

// Empties the buckets.
fn empty_all(alloc: Global, buckets: &mut Vec<Items<Cell>>)
    requires { vec_len buckets.old ≡ 32 }
    ensures ring { vec_len buckets.new ≡ 32 }
    ensures empty { (b : ℕ) → b < 32 → slice_index_or buckets.new.items b [] ≡ [] }
{
    for b in 0..32usize {
        empty(alloc, &mut buckets[b]);
    }
}

// The rooms of a search, for another one.
fn used_again(alloc: Global, mut rooms: Search, start: Cell) -> Search
    requires east { start.x < rooms.costs.width }
    requires north { start.z < rooms.costs.depth }
    requires stamp { rooms.costs.stamp < 2 ^ 32 - 1 }
    ensures { IsBlank (size_of rooms.costs) start result }
{
    empty_all(alloc, &mut rooms.buckets);
    rooms.start = start;
    rooms.costs.forget();
    rooms
}

// Whether a search from this start can be made in these rooms.
fn fits(rooms: &Search, origin: Origin) -> bool
    ensures { IsTrue result ↔ (size_of rooms.now.costs ≡ ground_of origin) × (rooms.now.costs.stamp < 2 ^ 32 - 1) }
{
    rooms.costs.width == origin.width
        && rooms.costs.depth == origin.depth
        && rooms.costs.stamp < u32::MAX
}

// A search that has come to no cell yet, in the rooms of an earlier one, where they fit.
fn blank(alloc: Global, rooms: Option<Search>, origin: Origin) -> Result<Search, OutOfMemory>
    ensures { IfOk result (λ s. IsBlank (ground_of origin) origin.start s) }
{
    if let Some(rooms) = rooms {
        if fits(&rooms, origin) {
            return Ok(used_again(alloc, rooms, origin.start));
        }
    }
    new_rooms(alloc, origin)
}

/// A search that has come to no cell but the start, in the rooms of an earlier one.
pub fn begun<A: Guide>(
    alloc: Global,
    rooms: Option<Search>,
    origin: Origin,
    aim: A,
) -> Result<Search, OutOfMemory>
    ensures { IfOk result (λ s. Begins (A.estimate_of aim) (ground_of origin) origin.start s) }
{
    let start = origin.start;
    let mut search = blank(alloc, rooms, origin)?;
    let place = search.costs.place(start);
    wait(&mut search, aim, start, place, 0)?;
    Ok(search)
}

// Whether the total is lower than the cost of a cell.
#[inline(always)]
fn is_lower(search: &Search, at: Spot, total: u32) -> bool
    requires { IsSpot (size_of search.now.costs) at }
    ensures { result ≡ is_lower_than total (cost_in search.now.costs at.cell) }
{
    match search.costs.at_spot(at) {
        None => true,
        Some(cost) => total < cost,
    }
}

// Gives a cell the total as its cost, which is lower than before, and lets it wait there. Few steps come so far, so it is no part of
// the loop.
#[inline(never)]
fn wait<A: Guide>(
    search: &mut Search,
    aim: A,
    to: Cell,
    place: usize,
    total: u32,
) -> Result<(), OutOfMemory>
    requires to_on { IsOnGround (size_of search.old.costs) to }
    requires place { place ≡ place_in search.old.costs to }
    requires small { total < 2 ^ 31 + 2 ^ 8 }
    requires lower { is_lower_than total (cost_in search.old.costs to) ≡ true }
    ensures { OnOk result (IsLowered (A.estimate_of aim) search.old search.new to total) }
{
    let key = total + aim.estimate(to);
    let waiting = &mut search.buckets[bucket(key)];
    waiting.push(to)?;
    search.costs.set(Spot { cell: to, place }, total);
    Ok(())
}

/// Gives a cell a cost of at most the total, and if its cost falls so, lets it wait there.
#[inline(always)]
pub fn lower<A: Guide>(search: &mut Search, aim: A, to: Spot, total: u32) -> Result<(), OutOfMemory>
    requires to_on { IsSpot (size_of search.old.costs) to }
    requires small { total < 2 ^ 31 + 2 ^ 8 }
    ensures { OnOk result (Lowers (A.estimate_of aim) search.old search.new to.cell total) }
{
    if is_lower(search, to, total) {
        wait(search, aim, to.cell, to.place, total)?;
    }
    Ok(())
}

/// The cost of a cell that was not taken: None where it has none.
pub fn waiting(search: &Search, cell: Cell) -> Option<u32>
    ensures none { result ≡ None → (d : ℕ) → cost_in search.now.costs cell ≡ Some d → taken_in search.now cell ≡ true }
    ensures cost { (d : ℕ) → result ≡ Some d → cost_in search.now.costs cell ≡ Some d }
    ensures untaken { (d : ℕ) → result ≡ Some d → taken_in search.now cell ≡ false }
{
    let cost = search.costs.at(cell)?;
    if is_taken(search, cell) {
        None
    } else {
        Some(cost)
    }
}

// Whether a cell was taken.
fn is_taken(search: &Search, cell: Cell) -> bool
    ensures { result ≡ taken_in search.now cell }
{
    search.costs.has(cell) && search.taken[search.costs.place(cell)] == search.costs.stamp
}

/// Takes a cell.
pub fn take(search: &mut Search, cell: Cell)
    requires { IsOnGround (size_of search.old.costs) cell }
    ensures { Takes search.old search.new cell }
{
    let place = search.costs.place(cell);
    search.taken[place] = search.costs.stamp;
}

/// Whether no cell stands in the bucket of a key.
pub fn is_empty(search: &Search, now: u32) -> bool
    ensures { IsTrue result ↔ bucket_in search.now (now % 32) ≡ [] }
{
    search.buckets[bucket(now)].as_slice().is_empty()
}

/// Takes the bucket of a key out, and puts the spare one in its place.
pub fn swap_bucket(search: &mut Search, spare: Items<Cell>, now: u32) -> Items<Cell>
    requires { spare ≡ [] }
    ensures bucket { result ≡ bucket_in search.old (now % 32) }
    ensures rest { Empties search.old search.new (now % 32) }
{
    mem::replace(&mut search.buckets[bucket(now)], spare)
}

/// The bucket without its cells, in the room that it had.
pub fn emptied(cells: Items<Cell>) -> Items<Cell>
    ensures { result ≡ [] }
{
    let mut room = cells.into_items();
    room.clear();
    Items::from_items(room)
}
