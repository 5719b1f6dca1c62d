//! A whole template, part after part in the order of the table.

ghost use Rattle.{sim_base.specs.Limits.IsTemplate, sim_traits.specs.{Meets.Meets, Values.{early_in, template_in}}, sim_tree.specs.Trees.node_of};
ghost use Rattle.std.specs.Prelude.{IfErr, IfOk, length, ◌≡◌};

use crate::fault::TraitFault;
use crate::parts::{arms_of, base_of, health_of, resist_of, speed_of};
use crate::table::has_known_parts;
use crate::units::train_of;
use sim_base::{Global, Name, Resist, Template};
use sim_merge::Library;
use sim_tree::{Tree, copy_name};

// What a template without levels of resistance has.
const UNARMOURED: Resist = Resist {
    hack: 0,
    pierce: 0,
    crush: 0,
};

/// The template of a name and a resolved tree, which has no marks. The library names the templates that it may train.
///
/// The first refusal is the answer: `UnknownPart`; then for each part, in the order of their numbers, `Missing` and
/// after it `OutOfRange`; and last `Clash`.
#[tactic(auto, unfolding(crate::specs::Values::template_in))]
pub fn template_of(
    alloc: Global,
    name: &Name,
    tree: &Tree<'_>,
    names: &Library<'_>,
) -> Result<Template, TraitFault>
    ensures early { IfErr (early_in (node_of tree.now)) (λ fault. result ≡ Err fault) }
    ensures answers { Meets result (template_in name.now (node_of tree.now) names.now.names) }
    ensures limits { IfOk result (IsTemplate (length names.now.names)) }
{
    if !has_known_parts(tree) {
        return Err(TraitFault::UnknownPart);
    }
    let health = health_of(tree)?;
    let resist = resist_of(tree)?;
    let speed = speed_of(tree)?;
    let obstruct = base_of(tree)?;
    let arms = arms_of(tree)?;
    let train = train_of(alloc, tree, names)?;
    if speed.is_some() && obstruct.is_some() {
        return Err(TraitFault::Clash);
    }
    Ok(Template {
        name: copy_name(alloc, name)?,
        health,
        resist: resist.unwrap_or(UNARMOURED),
        speed,
        obstruct,
        arms,
        train,
    })
}
