//! Grounds of several kinds, each with its labels.

ghost use Rattle.std.specs.Prelude.{◌≡◌, ◌≤◌, IsTrue};
ghost use Rattle.sim_base.specs.Places.{is_inside};

use sim_base::{Cell, Global, OutOfMemory, Point};
use sim_grid::Grid;
use sim_path::{Labels, Searcher, labels_of, way_with};
use sim_system::Way;
use std::marker::Model;

/// Which cells of a ground are closed.
#[derive(Clone, Copy, Debug)]
pub enum Ground {
    /// None.
    Open,
    /// Every eleventh along a slope.
    Scattered,
    /// Every second row but for its one end and its other in turn.
    Corridors,
    /// Walls every sixteen cells, each with a door.
    Rooms,
    /// Blocks of four by four, every sixteen cells.
    Buildings,
}

pub const GROUNDS: [Ground; 5] = [
    Ground::Open,
    Ground::Scattered,
    Ground::Corridors,
    Ground::Rooms,
    Ground::Buildings,
];

/// A ground and the labels of its regions. Contracts see the cells of the ground.
#[derive(Drop)]
pub struct Site {
    grid: Grid,
    labels: Labels,
}

impl Model for Site {
    ghost use Rattle.{sim_grid.specs.Grids.OpenCells, sim_grid.specs.Grids.field_of_grid, sim_search.specs.Floods.AreLabels, sim_search.specs.Floods.label_in};

    ghost Value = { OpenCells };

    ghost view = { λ s. s.grid };

    ghost invariant = { λ s. AreLabels (field_of_grid s.grid) (label_in s.labels) };
}

impl Site {
    /// The ground of this kind of so many cells each way.
    pub fn new(alloc: Global, size: u16, ground: Ground) -> Result<Site, OutOfMemory>
        requires least { 1 ≤ size }
        requires most { size ≤ 256 }
    {
        let mut grid = Grid::new(alloc, size, size)?;
        close_cells(&mut grid, ground);
        let labels = labels_of(alloc, &grid)?;
        Ok(Site { grid, labels })
    }

    /// Lends the ground.
    pub fn grid(&self) -> &Grid
        ensures { result.now ≡ self.now }
    {
        &self.grid
    }

    /// The way by labels, in rooms of its own.
    pub fn way(&self, alloc: Global, start: Point, goal: Point) -> Result<Way, OutOfMemory>
        requires start { IsTrue (is_inside self.now.size start) }
        requires goal { IsTrue (is_inside self.now.size goal) }
    {
        way_with(alloc, &self.grid, &self.labels, start, goal)
    }

    /// The way by labels, in the rooms of a searcher.
    pub fn way_by(
        &self,
        alloc: Global,
        searcher: &mut Searcher,
        start: Point,
        goal: Point,
    ) -> Result<Way, OutOfMemory>
        requires start { IsTrue (is_inside self.now.size start) }
        requires goal { IsTrue (is_inside self.now.size goal) }
    {
        searcher.way(alloc, &self.grid, &self.labels, start, goal)
    }
}

fn close_cells(grid: &mut Grid, ground: Ground) {
    let size = grid.width();
    for z in 0..size {
        for x in 0..size {
            let cell = Cell { x, z };
            if grid.has(cell) {
                grid.set(cell, is_free(ground, size, x, z));
            }
        }
    }
}

fn is_free(ground: Ground, size: u16, x: u16, z: u16) -> bool {
    match ground {
        Ground::Open => true,
        Ground::Scattered => (u32::from(x) * 7 + u32::from(z) * 13) % 11 != 0,
        Ground::Corridors => z % 2 == 0 || x == end_of_wall(size, z),
        Ground::Rooms => (x % 16 != 15 || z % 16 == 7) && (z % 16 != 15 || x % 16 == 7),
        Ground::Buildings => !(x % 16 >= 6 && x % 16 < 10 && z % 16 >= 6 && z % 16 < 10),
    }
}

fn end_of_wall(size: u16, z: u16) -> u16 {
    if z % 4 == 1 {
        size.saturating_sub(1)
    } else {
        0
    }
}
