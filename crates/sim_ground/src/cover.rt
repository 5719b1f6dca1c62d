//! How many rectangles cover each cell, and beside that the grid of the cells that none covers. A rectangle that comes or
//! goes changes the cells that it covers and no other.

ghost use Rattle.std.specs.Prelude.{count_by, false, IfOk, length, replicate, ◌*◌, ◌+◌, ◌<◌, ◌≡◌, ◌≤◌};
ghost use Rattle.sim_base.specs.{Commands.rect_covers, Places.IsOnGround, Places.covers, Places.same_cell, Rows.size_of};
ghost use Rattle.sim_ground.specs.Closing.{in_row, in_window, LiesOn};
ghost use Rattle.sim_ground.specs.Layers.{AreAtMost, AreLayersOf, AreOpenWhereNone, layers_at, LayersTurn, MayChange, MayStep, most_layers, part_covers, Steps};

use crate::window::{Window, window_of};
use sim_base::{Cell, Global, Land, OutOfMemory, Rect};
use sim_grid::Grid;
use sim_system::Fact;

/// The layers over each cell by z, then x, and the cells that are open.
#[derive(Drop)]
pub struct Cover {
    pub grid: Grid,
    pub layers: Vec<u16>,
    ghost agree: { AreOpenWhereNone grid layers.items },
}

// One layer more or fewer.
fn stepped(layers: u16, more: bool) -> u16
    requires { MayStep more layers }
    ensures { Steps more 1 layers result }
{
    if more { layers + 1 } else { layers - 1 }
}

impl Cover {
    ghost use Rattle.sim_ground.specs.Covering.{Changes, MayBuild, MayDraw, Rises};

    // No cell is covered.
    fn new(alloc: Global, width: u16, depth: u16) -> Result<Cover, OutOfMemory>
        requires wide { 1 ≤ width }
        requires narrow { width ≤ 256 }
        requires deep { 1 ≤ depth }
        requires shallow { depth ≤ 256 }
        ensures size { IfOk result (λ cover. cover.grid.size ≡ record { width = width; depth = depth }) }
        ensures layers { IfOk result (λ cover. cover.layers.items ≡ replicate (width * depth) 0) }
    {
        let grid = Grid::new(alloc, width, depth)?;
        let count = usize::from(width) * usize::from(depth);
        let layers = vec![in alloc; 0u16; count]?;
        Ok(Cover { grid, layers })
    }

    /// The layers of a land with obstructions.
    pub fn of(alloc: Global, land: &Land, facts: &[Fact]) -> Result<Cover, OutOfMemory>
        requires { MayDraw land.now facts.now }
        ensures size { IfOk result (λ cover. cover.grid.size ≡ size_of land.now) }
        ensures layers { IfOk result (λ cover. AreLayersOf land.now facts.now cover.layers.items) }
    {
        let mut cover = Cover::new(alloc, land.width, land.depth)?;
        cover.close_all(land.closed.as_slice());
        cover.build_all(facts);
        Ok(cover)
    }

    // One layer more or fewer over a cell. Says whether that closed or opened it.
    fn step(&mut self, cell: Cell, more: bool) -> bool
        requires ground { IsOnGround self.old.grid.size cell }
        requires may { MayStep more (layers_at self.old.grid.size self.old.layers.items cell) }
        ensures { Changes more (λ c. same_cell c cell) result self.old self.new }
    {
        let place = usize::from(cell.z) * usize::from(self.grid.width()) + usize::from(cell.x);
        let before = self.layers[place];
        let after = stepped(before, more);
        self.layers[place] = after;
        if (before == 0) != (after == 0) {
            self.grid.set(cell, after == 0);
            true
        } else {
            false
        }
    }

    // The same over the cells of a window in one of its rows.
    fn step_row(&mut self, window: Window, z: u16, more: bool) -> bool
        requires row { z < self.old.grid.size.depth }
        requires on { LiesOn self.old.grid.size window }
        requires may { MayChange more (in_row z window.west window.east) self.old.grid.size self.old.layers.items }
        ensures { Changes more (in_row z window.west window.east) result self.old self.new }
    {
        let mut turned = false;
        for x in window.west..window.east {
            if self.step(Cell { x, z }, more) {
                turned = true;
            }
        }
        turned
    }

    // The same over all cells of a window.
    fn step_window(&mut self, window: Window, more: bool) -> bool
        requires on { LiesOn self.old.grid.size window }
        requires may { MayChange more (in_window window) self.old.grid.size self.old.layers.items }
        ensures { Changes more (in_window window) result self.old self.new }
    {
        let mut turned = false;
        for z in window.south..window.north {
            if self.step_row(window, z, more) {
                turned = true;
            }
        }
        turned
    }

    // The same over the cells of a rectangle that lie on the ground.
    fn step_rect(&mut self, rect: &Rect, more: bool) -> bool
        requires { MayChange more (covers rect.now) self.old.grid.size self.old.layers.items }
        ensures { Changes more (covers rect.now) result self.old self.new }
    {
        let cover = &*self;
        let window = window_of(rect, &cover.grid);
        self.step_window(window, more)
    }

    // The same over those of an obstruction.
    fn step_built(&mut self, rect: &Option<Rect>, more: bool) -> bool
        requires { MayChange more (rect_covers rect.now) self.old.grid.size self.old.layers.items }
        ensures { Changes more (rect_covers rect.now) result self.old self.new }
    {
        match rect {
            Some(rect) => self.step_rect(rect, more),
            None => false,
        }
    }

    // The same over those of what is kept of an entity.
    fn step_part(&mut self, part: &Option<Fact>, more: bool) -> bool
        requires { MayChange more (part_covers part.now) self.old.grid.size self.old.layers.items }
        ensures { Changes more (part_covers part.now) result self.old self.new }
    {
        match part {
            Some(fact) => self.step_built(&fact.rect, more),
            None => false,
        }
    }

    /// Takes what was kept of an entity, and puts down what is. Says whether a cell was closed or opened.
    pub fn turn(&mut self, before: &Option<Fact>, after: &Option<Fact>) -> bool
        requires there { MayChange false (part_covers before.now) self.old.grid.size self.old.layers.items }
        requires few { AreAtMost (most_layers + 1) self.old.grid.size self.old.layers.items }
        ensures size { self.new.grid.size ≡ self.old.grid.size }
        ensures layers { LayersTurn (part_covers before.now) (part_covers after.now) self.old.grid.size self.old.layers.items self.new.layers.items }
        ensures same { result ≡ false → self.new.grid ≡ self.old.grid }
    {
        let opened = self.step_part(before, false);
        let closed = self.step_part(after, true);
        opened || closed
    }

    // One layer more over each of the closed rectangles of a land.
    fn close_all(&mut self, closed: &[Rect])
        requires { MayBuild (length closed.now) self.old }
        ensures { Rises (λ c. count_by (λ r. covers r c) closed.now) self.old self.new }
    {
        for rect in closed {
            self.step_rect(rect, true);
        }
    }

    // One layer more over each obstruction.
    fn build_all(&mut self, facts: &[Fact])
        requires { MayBuild (length facts.now) self.old }
        ensures { Rises (λ c. count_by (λ fact. rect_covers fact.rect c) facts.now) self.old self.new }
    {
        for fact in facts {
            self.step_built(&fact.rect, true);
        }
    }
}
