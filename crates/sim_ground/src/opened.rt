//! The layers over each cell, the open cells as a grid, and the labels of their regions. A note changes the layers. Where it
//! closed or opened a cell, the labels of these cells alone are changed if no other changes by that, and else all are made anew.
//! They serve every ask until the next note does.

ghost use Rattle.{sim_base.specs.Rows.size_of, sim_grid.specs.Grids.field_of_grid, sim_ground.specs.{Covering.MayDraw, Layers.{AreAtMost, AreLayersOf}}};
ghost use Rattle.{sim_ground.specs.Layers.{LayersTurn, MayChange, most_layers, no_part, part_covers}, sim_search.specs.Floods.{AreLabels, label_in}};
ghost use Rattle.std.specs.Prelude.{false, IfOk, OnErr, OnOk, ◌≡◌};

use crate::cover::Cover;
use crate::mended::are_mended;
use sim_base::{Global, Land, OutOfMemory};
use sim_path::{Labels, labels_of};
use sim_system::Fact;

/// The layers and the open cells of a land with its obstructions, and the labels of their regions.
#[derive(Drop)]
pub struct Opened {
    pub cover: Cover,
    pub labels: Labels,
    ghost labelled: { ∥ AreLabels (field_of_grid cover.grid) (label_in labels) ∥₁ },
}

impl Opened {
    /// Those of a land with these obstructions.
    pub fn of(alloc: Global, land: &Land, facts: &[Fact]) -> Result<Opened, OutOfMemory>
        requires { MayDraw land.now facts.now }
        ensures size { IfOk result (λ opened. opened.cover.grid.size ≡ size_of land.now) }
        ensures layers { IfOk result (λ opened. AreLayersOf land.now facts.now opened.cover.layers.items) }
    {
        let cover = Cover::of(alloc, land, facts)?;
        let labels = labels_of(alloc, &cover.grid)?;
        Ok(Opened { cover, labels })
    }

    /// Takes what was kept of an entity, and puts down what is, or leaves all as it was.
    pub fn turn(
        &mut self,
        alloc: Global,
        before: &Option<Fact>,
        after: &Option<Fact>,
    ) -> Result<(), OutOfMemory>
        requires there { MayChange false (part_covers before.now) self.old.cover.grid.size self.old.cover.layers.items }
        requires few { AreAtMost most_layers self.old.cover.grid.size self.old.cover.layers.items }
        ensures size { self.new.cover.grid.size ≡ self.old.cover.grid.size }
        ensures ok { OnOk result (LayersTurn (part_covers before.now) (part_covers after.now) self.old.cover.grid.size self.old.cover.layers.items
            self.new.cover.layers.items) }
        ensures err { OnErr result (LayersTurn no_part no_part self.old.cover.grid.size self.old.cover.layers.items self.new.cover.layers.items) }
    {
        if !self.cover.turn(before, after) {
            return Ok(());
        }
        if are_mended(alloc, &mut self.labels, &self.cover.grid, before, after) {
            return Ok(());
        }
        match labels_of(alloc, &self.cover.grid) {
            Ok(labels) => self.labels = labels,
            Err(error) => {
                self.cover.turn(after, before);
                return Err(error);
            }
        }
        Ok(())
    }
}
