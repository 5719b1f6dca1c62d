//! What a kind of system keeps of a fact.

ghost use Rattle.std.specs.Prelude.{false, IfOk, None, ◌≡◌};
ghost use Rattle.sim_fact_lists.specs.Changes.{id_in, part_aimed, part_moved, part_noted, part_owned};
ghost use Rattle.sim_system.specs.Notes.{keeps as keeps_of, kept as kept_part, kept_of, origin as origin_at, part_for as part_of};

use sim_base::{Fixed, Global, OutOfMemory, Point};
use sim_system::{Fact, Facts, Kind, Note};

// Whether a kind keeps anything of an entity.
fn keeps(kind: Kind, fact: &Fact) -> bool
    ensures { result ≡ keeps_of kind fact.now }
{
    match kind {
        Kind::Ground => fact.rect.is_some(),
        Kind::Range => fact.health || fact.vision.is_some(),
        Kind::Watch => fact.target != 0,
        Kind::Census => true,
    }
}

// Stands in a fact for a place that is not kept.
fn origin() -> Point
    ensures { result ≡ origin_at }
{
    Point {
        x: Fixed::from_raw(0),
        z: Fixed::from_raw(0),
    }
}

// A fact that has an id, and nothing else.
fn bare(id: u32) -> Fact
    ensures { result ≡ record { id = id; at = origin_at; owner = 0; health = false; vision = None; rect = None; target = 0 } }
{
    Fact {
        id,
        at: origin(),
        owner: 0,
        health: false,
        vision: None,
        rect: None,
        target: 0,
    }
}

// The fields that a kind keeps.
fn part_for(kind: Kind, fact: &Fact) -> Fact
    ensures { result ≡ part_of kind fact.now }
{
    let bare = bare(fact.id);
    match kind {
        Kind::Ground => Fact {
            rect: fact.rect,
            ..bare
        },
        Kind::Range => Fact {
            at: fact.at,
            owner: fact.owner,
            health: fact.health,
            vision: fact.vision,
            ..bare
        },
        Kind::Watch => Fact {
            target: fact.target,
            ..bare
        },
        Kind::Census => Fact {
            owner: fact.owner,
            ..bare
        },
    }
}

/// What a kind keeps of an entity, if anything.
pub fn kept(kind: Kind, fact: &Fact) -> Option<Fact>
    ensures { result ≡ kept_part kind fact.now }
{
    if keeps(kind, fact) {
        Some(part_for(kind, fact))
    } else {
        None
    }
}

/// What a kind keeps of an entity after a note on it, where this was kept before.
pub fn part_after(kind: Kind, part: Option<Fact>, note: &Note) -> Option<Fact>
    ensures { result ≡ part_noted kind part note.now }
{
    match note {
        Note::Born { fact } => kept(kind, fact),
        Note::Gone { .. } => None,
        Note::Moved { id: _, from: _, to } => moved(kind, part, to),
        Note::Owned { id: _, from: _, to } => owned(kind, part, *to),
        Note::Aimed { id, from: _, to } => aimed(kind, part, *id, *to),
    }
}

// After a move, which Range alone keeps.
fn moved(kind: Kind, part: Option<Fact>, to: &Point) -> Option<Fact>
    ensures { result ≡ part_moved kind part to.now }
{
    match (kind, part) {
        (Kind::Range, Some(fact)) => Some(Fact { at: *to, ..fact }),
        _ => part,
    }
}

// After a change of owner, which Range and Census keep.
fn owned(kind: Kind, part: Option<Fact>, to: u8) -> Option<Fact>
    ensures { result ≡ part_owned kind part to }
{
    match (kind, part) {
        (Kind::Range, Some(fact)) => Some(Fact { owner: to, ..fact }),
        (Kind::Census, Some(fact)) => Some(Fact { owner: to, ..fact }),
        _ => part,
    }
}

// After an aim, which Watch alone keeps.
fn aimed(kind: Kind, part: Option<Fact>, id: u32, to: u32) -> Option<Fact>
    ensures { result ≡ part_aimed kind part id to }
{
    match kind {
        Kind::Watch => kept(
            kind,
            &Fact {
                target: to,
                ..bare(id)
            },
        ),
        _ => part,
    }
}

/// The id of which a note tells.
pub fn id_of(note: &Note) -> u32
    ensures { result ≡ id_in note.now }
{
    match note {
        Note::Born { fact } => fact.id,
        Note::Gone { fact } => fact.id,
        Note::Moved { id, .. } => *id,
        Note::Owned { id, .. } => *id,
        Note::Aimed { id, .. } => *id,
    }
}

/// What a kind keeps of several entities.
pub fn all_kept(alloc: Global, kind: Kind, facts: &[Fact]) -> Result<Vec<Fact>, OutOfMemory>
    ensures { IfOk result (λ all. all.items ≡ kept_of kind facts.now) }
{
    let mut all = Facts::new(alloc);
    for fact in facts {
        if let Some(part) = kept(kind, fact) {
            all.push(part)?;
        }
    }
    Ok(all.into_items())
}
