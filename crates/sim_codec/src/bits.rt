//! The bytes of one entity in one section. Two states are compared by them, entity by entity and part by part.

ghost use Rattle.std.specs.Prelude.{◌≡◌, map, Some, None, All, option_map};
ghost use Rattle.sim_codec.specs.{Bits.bits, Bits.clock_bits, Bits.row_bits, Common.clock_bytes, Common.HasShortWay, Common.id_of, Common.IsStrictlyIncreasing};

use crate::look_up::place_of;
use crate::spelling::tell_clock;
use sim_base::{Row, State};
use sim_bytes::{
    AttackRow, Buffer, EntityRow, HealthRow, MotionRow, OwnerRow, PositionRow, RowForm, StanceRow,
};
use std::marker::Model;

/// What may be said of an entity: a section, or the clock, which entity 1 has in place of a row.
#[derive(Clone, Copy, Debug, PartialEq, Eq)]
pub enum Part {
    Clock,
    Entity,
    Position,
    Owner,
    Health,
    Motion,
    Attack,
    Stance,
}

/// The bytes of an entity in a section, at most 527 in place, or that it has none there.
#[derive(Drop)]
pub struct Bits {
    found: Option<Buffer<527>>,
}

impl Model for Bits {
    ghost use Rattle.std.specs.Prelude.{ℕ, List, Option};

    ghost Value = { Option (List ℕ) };

    ghost view = { λ bits. bits.found };
}

impl Bits {
    /// The bytes, or None where the entity has none in the section.
    pub fn bytes(&self) -> Option<&[u8]>
        ensures { option_map (λ bytes. bytes.now) result ≡ self.now }
    {
        match &self.found {
            None => None,
            Some(buffer) => Some(buffer.bytes()),
        }
    }

    fn absent() -> Bits
        ensures { result ≡ None }
    {
        Bits { found: None }
    }
}

fn bits_of_clock(state: &State) -> Bits
    ensures { result ≡ Some (clock_bytes state.now) }
{
    let mut buffer = Buffer::new();
    match tell_clock(&mut buffer, state.turn, state.next, state.word) {
        Ok(()) => Bits {
            found: Some(buffer),
        },
        Err(never) => match never {},
    }
}

fn bits_of_first(state: &State, part: Part) -> Bits
    ensures { result ≡ clock_bits state.now part }
{
    match part {
        Part::Clock => bits_of_clock(state),
        Part::Entity
        | Part::Position
        | Part::Owner
        | Part::Health
        | Part::Motion
        | Part::Attack
        | Part::Stance => Bits::absent(),
    }
}

fn bits_in<'a, R: RowForm<'a>>(row: &'a Row) -> Bits
    requires { HasShortWay row.now }
    ensures { result ≡ option_map R.spelled (R.in_row row.now) }
{
    let found = match R::of(row) {
        None => return Bits::absent(),
        Some(found) => found,
    };
    let mut buffer = Buffer::new();
    match found.tell(&mut buffer) {
        Ok(()) => Bits {
            found: Some(buffer),
        },
        Err(never) => match never {},
    }
}

fn bits_of_row(row: &Row, part: Part) -> Bits
    requires { HasShortWay row.now }
    ensures { result ≡ row_bits part row.now }
{
    match part {
        Part::Clock => Bits::absent(),
        Part::Entity => bits_in::<EntityRow>(row),
        Part::Position => bits_in::<PositionRow>(row),
        Part::Owner => bits_in::<OwnerRow>(row),
        Part::Health => bits_in::<HealthRow>(row),
        Part::Motion => bits_in::<MotionRow>(row),
        Part::Attack => bits_in::<AttackRow>(row),
        Part::Stance => bits_in::<StanceRow>(row),
    }
}

/// The bytes of an entity in a section, or that it has none there. Entity 1 has the clock alone. It takes no memory.
pub fn bits_of(state: &State, entity: u32, part: Part) -> Bits
    requires ascending { IsStrictlyIncreasing (map id_of state.now.rows) }
    requires short { All HasShortWay state.now.rows }
    ensures { result ≡ bits state.now entity part }
{
    if entity == 1 {
        return bits_of_first(state, part);
    }
    let rows = state.rows.as_slice();
    match place_of(rows, entity) {
        None => Bits::absent(),
        Some(at) => bits_of_row(&rows[at], part),
    }
}
