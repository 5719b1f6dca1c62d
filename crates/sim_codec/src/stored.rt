//! A state that still stands in its bytes. Its rows are taken one after the other as often as they are wanted, and no
//! memory with them.

ghost use Rattle.{sim_bytes.specs.Reading.Reads, sim_codec.specs.Common.{has_health, id_of as id_of_row, IsStrictlyIncreasing, row_of, Tells}};
ghost use Rattle.{sim_codec.specs.{Reading.{rows_at, rows_in, state_at}, Taken.{next_in, parts_in}}, std.specs.List.{filter_map, flat_map}};
ghost use Rattle.std.specs.Prelude.{is_some, IsTrue, length, map, MatchOption, MatchResult, None, OnOk, option_map, Some, [], ◌↔◌, ◌∷◌, ◌≡◌, ◌≤◌};

use crate::entities::{are_ascending, count, entities_in, id_of, is_living, template_of};
use crate::part::PartForm;
use sim_base::{MAX_ROWS, Setup, Template};
use sim_bytes::{ByteSink, Parts, Short, Take, Version, Walk, locate, take_parts};
use std::marker::Model;

/// Rows that stand in the sections of a state. Contracts see them as the list of those that were not taken yet.
#[derive(Drop)]
pub struct StoredRows<'a> {
    templates: &'a [Template],
    count: u32,
    walk: Walk<'a>,
}

impl<'a> Model for StoredRows<'a> {
    ghost use Rattle.std.specs.Prelude.{is_some, List, true, ◌≡◌};
    ghost use Rattle.sim_codec.specs.{Common.Row, Reading.rows_at, Reading.rows_in};

    ghost Value = { List Row };

    ghost view = { λ rows. rows_in (rows_at rows.templates.now rows.count rows.walk) };

    ghost invariant = { λ rows. is_some (rows_at rows.templates.now rows.count rows.walk) ≡ true };
}

fn fork_of<'a>(walk: &Walk<'a>) -> Walk<'a>
    ensures { result ≡ walk.now }
{
    Walk {
        version: walk.version,
        entity: walk.entity.fork(),
        position: walk.position.fork(),
        owner: walk.owner.fork(),
        health: walk.health.fork(),
        motion: walk.motion.fork(),
        attack: walk.attack.fork(),
        stance: walk.stance.fork(),
    }
}

// Whether so many rows can be taken.
fn can_take(templates: &[Template], count: u32, mut walk: Walk<'_>) -> bool
    ensures { result ≡ is_some (rows_at templates.now count walk.entry) }
{
    for _ in 0..count {
        match take_parts(templates, &mut walk) {
            Ok(_) => {}
            Err(_) => return false,
        }
    }
    true
}

impl<'a> StoredRows<'a> {
    /// So many rows, or None where they cannot be taken.
    pub fn new(templates: &'a [Template], count: u32, walk: Walk<'a>) -> Option<StoredRows<'a>>
        ensures { result ≡ option_map (λ read. read.0) (rows_at templates.now count walk.entry) }
    {
        if !can_take(templates, count, fork_of(&walk)) {
            return None;
        }
        Some(StoredRows {
            templates,
            count,
            walk,
        })
    }

    /// The same rows once more.
    pub fn fork(&self) -> StoredRows<'a>
        ensures { result ≡ self.now }
    {
        StoredRows {
            templates: self.templates,
            count: self.count,
            walk: fork_of(&self.walk),
        }
    }

    /// How many rows were not taken yet.
    pub fn left(&self) -> usize
        ensures { result ≡ length self.now }
    {
        self.count as usize
    }

    /// Takes the next row, as what stands of it in each section.
    pub fn next(&mut self) -> Option<Parts<'a>>
        ensures { MatchOption result (self.old ≡ []) (λ parts. self.old ≡ row_of parts ∷ self.new) }
    {
        if self.count == 0 {
            return None;
        }
        match take_parts(self.templates, &mut self.walk) {
            // All rows were taken once before.
            Err(Short) => None,
            Ok(parts) => {
                self.count -= 1;
                Some(parts)
            }
        }
    }

    /// Whether the id of each row is above the one before.
    pub fn are_ascending(&self) -> bool
        ensures { IsTrue result ↔ IsStrictlyIncreasing (map id_of_row self.now) }
    {
        let entities = entities_in(self.walk.entity.bytes(), self.count as usize);
        are_ascending(entities)
    }

    /// Whether one of the rows has this id and health.
    pub fn is_alive(&self, id: u32) -> bool
        requires { IsStrictlyIncreasing (map id_of_row self.now) }
        ensures { result ≡ has_health self.now id }
    {
        let entities = entities_in(self.walk.entity.bytes(), self.count as usize);
        is_living(self.templates, entities, id)
    }

    /// Tells what the rows have in one section, of which no other is read but the first.
    pub fn tell_part<K: ByteSink, R: PartForm<'a>>(&self, out: &mut K) -> Result<(), K::Fault>
        ensures { OnOk result (Tells K.holds out.old out.new (flat_map R.spelled (filter_map R.in_row self.now))) }
    {
        let entities = entities_in(self.walk.entity.bytes(), self.count as usize);
        let from = R::reader(&self.walk);
        tell_parts::<K, R>(out, self.walk.version, self.templates, entities, from)
    }

    /// How many of the rows have this part.
    pub fn count<R: PartForm<'a>>(&self) -> u32
        ensures { result ≡ length (filter_map R.in_row self.now) }
    {
        let entities = entities_in(self.walk.entity.bytes(), self.count as usize);
        count::<R>(self.templates, entities) as u32
    }
}

// What the next entity has in a section, taken there.
#[tactic(auto, unfolding(crate::specs::Taken::next_in))]
fn take_next<'a, R: PartForm<'a>>(
    version: Version,
    templates: &[Template],
    entity: &[u8; 6],
    from: &mut Take<'a>,
) -> Result<Option<R>, Short>
    ensures { Reads (next_in R.part_at version templates.now entity.now) from.old result from.new }
{
    match templates.get(template_of(entity) as usize) {
        None => Err(Short),
        Some(template) => R::take_part(version, template, id_of(entity), from),
    }
}

// Tells what these entities have in a section, up to the first of which nothing can be taken.
fn tell_parts<'a, K: ByteSink, R: PartForm<'a>>(
    out: &mut K,
    version: Version,
    templates: &[Template],
    entities: &[[u8; 6]],
    mut from: Take<'a>,
) -> Result<(), K::Fault>
    ensures { OnOk result (Tells K.holds out.old out.new (flat_map R.spelled (parts_in R.part_at version templates.now entities.now from.entry))) }
{
    let mut rest = entities;
    'entities: while let [entity, more @ ..] = rest {
        match take_next::<R>(version, templates, entity, &mut from) {
            Err(Short) => return Ok(()),
            Ok(None) => {}
            Ok(Some(row)) => row.tell(out)?,
        }
        rest = more;
    }
    Ok(())
}

/// The numbers of a state and its rows, of which no more are there than a state may have.
#[derive(Drop)]
pub struct Stored<'a> {
    pub turn: u32,
    pub next: u32,
    pub word: u64,
    pub rows: StoredRows<'a>,
}

impl<'a> Model for Stored<'a> {
    ghost use Rattle.std.specs.Prelude.{◌≤◌, length};
    ghost use Rattle.sim_codec.specs.Common.{row_limit, State};

    ghost Value = { State };

    ghost view = { λ stored. record { turn = stored.turn; next = stored.next; word = stored.word; rows = stored.rows } };

    ghost invariant = { λ stored. length stored.rows ≤ row_limit };
}

/// The state of which these may be the bytes behind the id of the match, by the version that stands before it.
#[tactic(auto, unfolding(crate::specs::Reading::state_at))]
pub fn stored_from<'a>(
    version: Version,
    setup: &'a Setup,
    bytes: &'a [u8],
) -> Result<Stored<'a>, Short>
    ensures { MatchResult result (λ stored. state_at version setup.now bytes.now ≡ Some stored) (λ _. state_at version setup.now bytes.now ≡ None) }
{
    let mut from = Take::new(bytes);
    let turn = from.u32()?;
    let next = from.u32()?;
    let word = from.u64()?;
    let (count, walk) = locate(version, &mut from)?;
    if count as usize > MAX_ROWS {
        return Err(Short);
    }
    match StoredRows::new(setup.templates.as_slice(), count, walk) {
        None => Err(Short),
        Some(rows) => Ok(Stored {
            turn,
            next,
            word,
            rows,
        }),
    }
}
