//! All sections at once: a reader in each of them, and what stands there of one entity. The readers go on in lockstep,
//! so that no row is looked up by its id and no list of a section's rows is made.

ghost use Rattle.sim_bytes.specs.{Reading.Reads, Walking.{aim_of, holds as is_held, parts_at, sections_at, stances_at, Walks}};
ghost use Rattle.std.specs.Prelude.{◌≡◌};

use crate::{
    AttackRow, EntityRow, HealthRow, MotionRow, OwnerRow, PositionRow, RowForm, Short, StanceRow,
    Take, Version, open_section, take_if,
};
use sim_base::{Aim, Template};

/// A reader at a row of each section. In version 1 none is taken from the section of stances.
#[derive(Drop)]
pub struct Walk<'a> {
    pub version: Version,
    pub entity: Take<'a>,
    pub position: Take<'a>,
    pub owner: Take<'a>,
    pub health: Take<'a>,
    pub motion: Take<'a>,
    pub attack: Take<'a>,
    pub stance: Take<'a>,
}

/// What stands of one entity in each section.
#[derive(Drop)]
pub struct Parts<'a> {
    pub entity: EntityRow,
    pub position: PositionRow,
    pub owner: OwnerRow,
    pub health: Option<HealthRow>,
    pub motion: Option<MotionRow<'a>>,
    pub attack: Option<AttackRow>,
    pub stance: Option<StanceRow>,
}

impl Parts<'_> {
    fn holds(&self) -> bool
        ensures { result ≡ is_held self.now.stance }
    {
        match &self.stance {
            None => false,
            Some(stance) => stance.hold,
        }
    }

    /// Whom the entity attacks, if it can attack. Where nothing is said of its stance, it does not hold its place.
    pub fn aim(&self) -> Option<Aim>
        ensures { result ≡ aim_of self.now }
    {
        match &self.attack {
            None => None,
            Some(attack) => Some(Aim {
                target: attack.target,
                cooldown: attack.cooldown,
                hold: self.holds(),
            }),
        }
    }
}

// Passes over the section of stances, if the version has it: a reader at its first row.
#[tactic(auto, unfolding(crate::specs::Walking::stances_at))]
fn open_stances<'a>(version: Version, from: &mut Take<'a>) -> Result<Take<'a>, Short>
    ensures { Reads (stances_at version) from.old result from.new }
{
    match version {
        Version::One => Ok(from.fork()),
        Version::Two => {
            let (_, start) = open_section::<StanceRow>(from)?;
            Ok(start)
        }
    }
}

/// Passes over the sections: how many entities there are, and a reader at the first row of each section.
#[tactic(auto, unfolding(crate::specs::Walking::sections_at))]
pub fn locate<'a>(version: Version, from: &mut Take<'a>) -> Result<(u32, Walk<'a>), Short>
    ensures { Reads (sections_at version) from.old result from.new }
{
    let (count, entity) = open_section::<EntityRow>(from)?;
    let (_, position) = open_section::<PositionRow>(from)?;
    let (_, owner) = open_section::<OwnerRow>(from)?;
    let (_, health) = open_section::<HealthRow>(from)?;
    let (_, motion) = open_section::<MotionRow>(from)?;
    let (_, attack) = open_section::<AttackRow>(from)?;
    let stance = open_stances(version, from)?;
    Ok((
        count,
        Walk {
            version,
            entity,
            position,
            owner,
            health,
            motion,
            attack,
            stance,
        },
    ))
}

/// Takes what stands of the next entity, by the parts that its template has.
#[tactic(auto, unfolding(crate::specs::Walking::parts_at))]
pub fn take_parts<'a>(templates: &[Template], walk: &mut Walk<'a>) -> Result<Parts<'a>, Short>
    ensures { Walks (parts_at templates.now) walk.old result walk.new }
{
    let entity = EntityRow::take(&mut walk.entity)?;
    let template = match templates.get(entity.template as usize) {
        None => return Err(Short),
        Some(template) => template,
    };
    let position = PositionRow::take(&mut walk.position)?;
    let owner = OwnerRow::take(&mut walk.owner)?;
    let health = take_if::<HealthRow>(&mut walk.health, template.health.is_some())?;
    let motion = take_if::<MotionRow>(&mut walk.motion, template.speed.is_some())?;
    let has_arms = template.arms.is_some();
    let attack = take_if::<AttackRow>(&mut walk.attack, has_arms)?;
    let stance = take_if::<StanceRow>(&mut walk.stance, walk.version.has_stances() && has_arms)?;
    Ok(Parts {
        entity,
        position,
        owner,
        health,
        motion,
        attack,
        stance,
    })
}
