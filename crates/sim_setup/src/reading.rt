//! Codes 3 to 10 at the lists of a match file, which are read by its ground and its rules.

ghost use Rattle.std.specs.Prelude.{All, IfOk, length, map, None, ◌≡◌, ◌≢◌, ◌≤◌};
ghost use Rattle.sim_setup.specs.Setups.{commands_in as commands_in_data, entities_in as entities_in_data, few_sources, items_in as items_in_data};
ghost use Rattle.sim_setup.specs.Setups.{lists_in as lists_in_data, players_of as players_of_land};
ghost use Rattle.sim_setup.specs.{Common.IsTemplate, Common.origins_of, Common.view, Refusals.AreResolvable, Refusals.IsReadySource, Setups.Meets};

use crate::commands::{in_order, timeds_from};
use crate::entities::{entities_in, firsts_from};
use crate::fault::SetupFault;
use crate::resolved::resolved;
use crate::rules::Rules;
use crate::sources::are_few;
use crate::templates::templates_from;
use serde_json::Value;
use sim_base::{Firsts, Global, Land, Templates, Timeds};
use sim_json::list_at;
use sim_tree::Source;

/// The lists of a match, as a setup has them.
#[derive(Debug, Drop)]
pub struct Lists {
    pub templates: Templates,
    pub first: Firsts,
    pub commands: Timeds,
}

/// The ground and the rules of a match file, and the file itself, of which the lists are still to be read.
#[derive(Drop)]
pub struct Reading<'f> {
    pub land: &'f Land,
    pub rules: Rules,
    pub value: &'f Value,
    ghost players: { length land.now.masks ≤ 9 },
    ghost turns: { rules.turns ≤ 65535 },
}

impl Reading<'_> {
    /// The lists, where there are no more templates and entities than there may be.
    pub fn lists(&self, alloc: Global, sources: &[Source<'_>]) -> Result<Lists, SetupFault>
        requires { All IsReadySource sources.now }
        ensures value { Meets result (lists_in_data self.now.land.now self.now.rules (origins_of sources.now) (view self.now.value.now)) }
        ensures many { few_sources (origins_of sources.now) ≡ None → result ≡ Err (SetupFault.Refused 3 7) }
        ensures crowded { (few_sources (origins_of sources.now) ≢ None) × (entities_in_data (view self.now.value.now) ≡ None)
            → result ≡ Err (SetupFault.Refused 3 8) }
        ensures templates { IfOk result (λ lists. All (IsTemplate (length lists.templates)) lists.templates) }
    {
        if !are_few(sources) {
            return Err(SetupFault::Refused { code: 3, index: 7 });
        }
        let Some(entities) = entities_in(self.value) else {
            return Err(SetupFault::Refused { code: 3, index: 8 });
        };
        self.items(alloc, sources, entities)
    }

    // Codes 4 to 10.
    fn items(
        &self,
        alloc: Global,
        sources: &[Source<'_>],
        entities: &[Value],
    ) -> Result<Lists, SetupFault>
        requires { AreResolvable sources.now }
        ensures value { Meets result
            (items_in_data self.now.land.now self.now.rules (origins_of sources.now) (map view entities.now) (view self.now.value.now)) }
        ensures templates { IfOk result (λ lists. All (IsTemplate (length lists.templates)) lists.templates) }
    {
        let library = resolved(alloc, sources)?;
        let templates = templates_from(alloc, sources, &library)?;
        let first = firsts_from(alloc, &library, self.land, players_of(self.land), entities)?;
        let commands = self.commands(alloc)?;
        Ok(Lists {
            templates,
            first,
            commands,
        })
    }

    // Codes 9 and 10.
    fn commands(&self, alloc: Global) -> Result<Timeds, SetupFault>
        ensures { Meets result (commands_in_data self.now.land.now self.now.rules (view self.now.value.now)) }
    {
        let Some(items) = list_at(self.value, "commands") else {
            return Err(SetupFault::Refused { code: 2, index: 9 });
        };
        in_order(timeds_from(alloc, self.rules.turns, players_of(self.land), items)?)
    }
}

/// How many players the ground of a match file is for.
pub fn players_of(land: &Land) -> u8
    requires { length land.now.masks ≤ 9 }
    ensures { result ≡ players_of_land land.now }
{
    land.masks.as_slice().len().saturating_sub(1) as u8
}
