//! The numbers of a match, and the rows of a state, as records of plain numbers that any language can read.

ghost use Rattle.{sim_base.specs.Limits.IsSetup, sim_embed.specs.{Bytes.{OfMatch, OfState}, Causes.{IsNoMatch, IsNoStateOf}}};
ghost use Rattle.sim_embed.specs.Facts.{aim_of, entity_of as entity_by, facts_of, goal_of, health_of, in_32_bits, is_going};
ghost use Rattle.std.specs.Prelude.{IfErr, IfOk, map, ◌≡◌};

use crate::Refused;
use crate::reading::{match_of, state_of};
use sim_base::{Aim, Fixed, Global, Motion, OutOfMemory, Point, Row, Setup};

/// The numbers of a match: the ground in cells, the players, the turns, how many turns lie between an order and its turn, the most
/// entities of a player who makes one, and how many templates, first entities and commands the file has.
#[repr(C)]
#[derive(Clone, Copy, Default)]
pub struct Facts {
    pub width: u32,
    pub depth: u32,
    pub players: u32,
    pub turns: u32,
    pub delay: u32,
    pub cap: u32,
    pub templates: u32,
    pub entities: u32,
    pub commands: u32,
}

/// An entity: its id, the number of its template, its owner, its place, its health or 0, whether it goes and where to, whom it attacks
/// or 0, and whether it holds its place. Places and health are in units of 1/65536.
#[repr(C)]
#[derive(Clone, Copy, Default)]
pub struct Entity {
    pub id: u32,
    pub kind: u32,
    pub owner: u32,
    pub x: i32,
    pub z: i32,
    pub health: i32,
    pub going: u32,
    pub goal_x: i32,
    pub goal_z: i32,
    pub target: u32,
    pub holds: u32,
}

/// The numbers of the match that bytes are.
pub fn about(alloc: Global, game: &[u8]) -> Result<Facts, Refused>
    ensures is { IfOk result (λ facts. OfMatch game.now (λ setup. facts ≡ facts_of setup)) }
    ensures refused { IfErr result (IsNoMatch game.now) }
{
    let setup = match_of(alloc, game)?;
    Ok(facts_in(&setup))
}

fn facts_in(setup: &Setup) -> Facts
    requires { IsSetup setup.now }
    ensures { result ≡ facts_of setup.now }
{
    Facts {
        width: u32::from(setup.land.width),
        depth: u32::from(setup.land.depth),
        players: u32::from(setup.players),
        turns: setup.turns,
        delay: u32::from(setup.delay),
        cap: u32::from(setup.cap),
        templates: count(setup.templates.as_slice().len()),
        entities: count(setup.first.as_slice().len()),
        commands: count(setup.commands.as_slice().len()),
    }
}

// A length of 32 bits, or the greatest such number.
fn count(length: usize) -> u32
    ensures { result ≡ in_32_bits length }
{
    u32::try_from(length).unwrap_or(u32::MAX)
}

/// The entities of the state that bytes stand for, in their order.
pub fn entities(alloc: Global, game: &[u8], bytes: &[u8]) -> Result<Vec<Entity>, Refused>
    ensures is { IfOk result (λ found. OfState game.now bytes.now (λ setup state. found.items ≡ map entity_by state.rows)) }
    ensures refused { IfErr result (IsNoStateOf game.now bytes.now) }
{
    let setup = match_of(alloc, game)?;
    let state = state_of(alloc, &setup, bytes, 0)?;
    Ok(entities_of(alloc, state.rows.as_slice())?)
}

/// The entities of these rows, in their order.
pub fn entities_of(alloc: Global, rows: &[Row]) -> Result<Vec<Entity>, OutOfMemory>
    ensures { IfOk result (λ found. found.items ≡ map entity_by rows.now) }
{
    let mut found = Vec::with_capacity(alloc, rows.len())?;
    for row in rows {
        found.push(entity_of(row))?;
    }
    Ok(found)
}

#[tactic(auto, unfolding(crate::specs::Facts::entity_of))]
fn entity_of(row: &Row) -> Entity
    ensures { result ≡ entity_by row.now }
{
    let goal = goal(&row.motion, row.at);
    Entity {
        id: row.id,
        kind: u32::from(row.template),
        owner: u32::from(row.owner),
        x: row.at.x.raw(),
        z: row.at.z.raw(),
        health: health(row.health),
        going: u32::from(goes(&row.motion)),
        goal_x: goal.x.raw(),
        goal_z: goal.z.raw(),
        target: aim(row.attack).target,
        holds: u32::from(aim(row.attack).hold),
    }
}

// The health, or 0 where there is none.
fn health(health: Option<Fixed>) -> i32
    ensures { result ≡ health_of health }
{
    match health {
        Some(health) => health.raw(),
        None => 0,
    }
}

fn goes(motion: &Option<Motion>) -> bool
    ensures { result ≡ is_going motion.now }
{
    matches!(motion, Some(Motion::Going { .. }))
}

// The goal, or where the row stands.
fn goal(motion: &Option<Motion>, at: Point) -> Point
    ensures { result ≡ goal_of motion.now at }
{
    match motion {
        Some(Motion::Going { goal, .. }) => *goal,
        _ => at,
    }
}

// The aim, or that of a row without one.
fn aim(attack: Option<Aim>) -> Aim
    ensures { result ≡ aim_of attack }
{
    match attack {
        Some(aim) => aim,
        None => Aim {
            target: 0,
            cooldown: 0,
            hold: false,
        },
    }
}
