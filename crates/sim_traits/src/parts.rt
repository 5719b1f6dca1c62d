//! The parts that are read without memory: a part that is not there gives None, one that lacks a text is refused, and
//! then one with a text that is out of range.

ghost use Rattle.std.specs.Prelude.{IfOk, IfSome, ◌≡◌, ◌≤◌};
ghost use Rattle.sim_traits.specs.Values.{accuracy_in as accuracy_in_node, arms_in as arms_in_node, attack_part, base_in as base_in_node};
ghost use Rattle.sim_traits.specs.Values.{damage_in as damage_in_node, distance_in as distance_in_node, harm_in as harm_in_node, health_in as health_in_node};
ghost use Rattle.sim_traits.specs.Values.{health_part, level_in as level_in_node, motion_part, obstruct_part, part_of, repeat_in as repeat_in_node};
ghost use Rattle.sim_traits.specs.Values.{resist_in as resist_in_node, resist_part, side_in as side_in_node, speed_in as speed_in_node};
ghost use Rattle.{sim_base.specs.Limits.IsArms, sim_base.specs.Limits.IsFrom, sim_base.specs.Limits.IsRawFrom, sim_tree.specs.Trees.node_of};

use crate::fault::TraitFault;
use crate::fields::{lacks, raw_in, text_at, text_or, whole_in};
use sim_base::{Arms, Base, Fixed, Harm, Resist};
use sim_tree::Tree;

/// The health.
pub fn health_of(root: &Tree<'_>) -> Result<Option<Fixed>, TraitFault>
    ensures value { result ≡ part_of health_part health_in_node (node_of root.now) }
    ensures within { IfOk result (λ found. IfSome found (IsRawFrom 1 1048576000)) }
{
    let Some(part) = root.child("Health") else {
        return Ok(None);
    };
    if lacks(part, &["Max"], &[]) {
        return Err(TraitFault::Missing { part: 1 });
    }
    let health = health_in(part).ok_or(TraitFault::OutOfRange { part: 1 })?;
    Ok(Some(health))
}

fn health_in(part: &Tree<'_>) -> Option<Fixed>
    ensures value { result ≡ health_in_node (node_of part.now) }
    ensures within { IfSome result (IsRawFrom 1 1048576000) }
{
    raw_in(text_at(part, "Max")?, 1, 1_048_576_000)
}

/// The levels of resistance.
pub fn resist_of(root: &Tree<'_>) -> Result<Option<Resist>, TraitFault>
    ensures value { result ≡ part_of resist_part resist_in_node (node_of root.now) }
    ensures within { IfOk result (λ found. IfSome found (λ resist. (resist.hack ≤ 40) × (resist.pierce ≤ 40) × (resist.crush ≤ 40))) }
{
    let Some(part) = root.child("Resist") else {
        return Ok(None);
    };
    if lacks(part, &[], &["Hack", "Pierce", "Crush"]) {
        return Err(TraitFault::Missing { part: 2 });
    }
    let resist = resist_in(part).ok_or(TraitFault::OutOfRange { part: 2 })?;
    Ok(Some(resist))
}

fn resist_in(part: &Tree<'_>) -> Option<Resist>
    ensures value { result ≡ resist_in_node (node_of part.now) }
    ensures within { IfSome result (λ resist. (resist.hack ≤ 40) × (resist.pierce ≤ 40) × (resist.crush ≤ 40)) }
{
    let hack = level_in(part, "Hack")?;
    let pierce = level_in(part, "Pierce")?;
    let crush = level_in(part, "Crush")?;
    Some(Resist {
        hack,
        pierce,
        crush,
    })
}

fn level_in(part: &Tree<'_>, name: &str) -> Option<u8>
    ensures value { result ≡ level_in_node name.now (node_of part.now) }
    ensures within { IfSome result (λ level. level ≤ 40) }
{
    let level = whole_in(text_or(part, name, "0")?, 0, 40)?;
    Some(level as u8)
}

/// The speed.
pub fn speed_of(root: &Tree<'_>) -> Result<Option<Fixed>, TraitFault>
    ensures value { result ≡ part_of motion_part speed_in_node (node_of root.now) }
    ensures within { IfOk result (λ found. IfSome found (IsRawFrom 5 6553600)) }
{
    let Some(part) = root.child("Motion") else {
        return Ok(None);
    };
    if lacks(part, &["Speed"], &[]) {
        return Err(TraitFault::Missing { part: 3 });
    }
    let speed = speed_in(part).ok_or(TraitFault::OutOfRange { part: 3 })?;
    Ok(Some(speed))
}

fn speed_in(part: &Tree<'_>) -> Option<Fixed>
    ensures value { result ≡ speed_in_node (node_of part.now) }
    ensures within { IfSome result (IsRawFrom 5 6553600) }
{
    raw_in(text_at(part, "Speed")?, 5, 6_553_600)
}

/// The obstruction.
pub fn base_of(root: &Tree<'_>) -> Result<Option<Base>, TraitFault>
    ensures value { result ≡ part_of obstruct_part base_in_node (node_of root.now) }
    ensures within { IfOk result (λ found. IfSome found (λ base. IsFrom 1 16 base.width × IsFrom 1 16 base.depth)) }
{
    let Some(part) = root.child("Obstruct") else {
        return Ok(None);
    };
    if lacks(part, &["Width", "Depth"], &[]) {
        return Err(TraitFault::Missing { part: 4 });
    }
    let base = base_in(part).ok_or(TraitFault::OutOfRange { part: 4 })?;
    Ok(Some(base))
}

fn base_in(part: &Tree<'_>) -> Option<Base>
    ensures value { result ≡ base_in_node (node_of part.now) }
    ensures within { IfSome result (λ base. IsFrom 1 16 base.width × IsFrom 1 16 base.depth) }
{
    let width = side_in(part, "Width")?;
    let depth = side_in(part, "Depth")?;
    Some(Base { width, depth })
}

fn side_in(part: &Tree<'_>, name: &str) -> Option<u8>
    ensures value { result ≡ side_in_node name.now (node_of part.now) }
    ensures within { IfSome result (IsFrom 1 16) }
{
    let side = whole_in(text_at(part, name)?, 1, 16)?;
    Some(side as u8)
}

/// The attack.
pub fn arms_of(root: &Tree<'_>) -> Result<Option<Arms>, TraitFault>
    ensures value { result ≡ part_of attack_part arms_in_node (node_of root.now) }
    ensures within { IfOk result (λ found. IfSome found IsArms) }
{
    let Some(part) = root.child("Attack") else {
        return Ok(None);
    };
    let needed = ["Range", "Vision", "Repeat"];
    let optional = ["Hack", "Pierce", "Crush", "Accuracy"];
    if lacks(part, &needed, &optional) {
        return Err(TraitFault::Missing { part: 5 });
    }
    let arms = arms_in(part).ok_or(TraitFault::OutOfRange { part: 5 })?;
    Ok(Some(arms))
}

fn arms_in(part: &Tree<'_>) -> Option<Arms>
    ensures value { result ≡ arms_in_node (node_of part.now) }
    ensures within { IfSome result IsArms }
{
    let harm = harm_in(part)?;
    let range = distance_in(part, "Range")?;
    let vision = distance_in(part, "Vision")?;
    let repeat = repeat_in(part)?;
    let accuracy = accuracy_in(part)?;
    Some(Arms {
        harm,
        range,
        vision,
        repeat,
        accuracy,
    })
}

fn harm_in(part: &Tree<'_>) -> Option<Harm>
    ensures value { result ≡ harm_in_node (node_of part.now) }
    ensures within { IfSome result (λ harm. IsRawFrom 0 65536000 harm.hack × IsRawFrom 0 65536000 harm.pierce × IsRawFrom 0 65536000 harm.crush) }
{
    let hack = damage_in(part, "Hack")?;
    let pierce = damage_in(part, "Pierce")?;
    let crush = damage_in(part, "Crush")?;
    Some(Harm {
        hack,
        pierce,
        crush,
    })
}

fn damage_in(part: &Tree<'_>, name: &str) -> Option<Fixed>
    ensures value { result ≡ damage_in_node name.now (node_of part.now) }
    ensures within { IfSome result (IsRawFrom 0 65536000) }
{
    raw_in(text_or(part, name, "0")?, 0, 65_536_000)
}

fn distance_in(part: &Tree<'_>, name: &str) -> Option<Fixed>
    ensures value { result ≡ distance_in_node name.now (node_of part.now) }
    ensures within { IfSome result (IsRawFrom 0 16777216) }
{
    raw_in(text_at(part, name)?, 0, 16_777_216)
}

fn repeat_in(part: &Tree<'_>) -> Option<u16>
    ensures value { result ≡ repeat_in_node (node_of part.now) }
    ensures within { IfSome result (λ repeat. repeat ≤ 1000) }
{
    whole_in(text_at(part, "Repeat")?, 0, 1000)
}

fn accuracy_in(part: &Tree<'_>) -> Option<u8>
    ensures value { result ≡ accuracy_in_node (node_of part.now) }
    ensures within { IfSome result (λ accuracy. accuracy ≤ 100) }
{
    let accuracy = whole_in(text_or(part, "Accuracy", "100")?, 0, 100)?;
    Some(accuracy as u8)
}
