//! The labels of the open cells where a rectangle came or went: those of its cells alone are changed, if that is enough.

ghost use Rattle.sim_base.specs.{Commands.rect_covers, Places.{covers, IsOnGround, same_cell}};
ghost use Rattle.sim_ground.specs.{Closing.{in_row, LiesOn}, Layers.part_covers};
ghost use Rattle.{sim_ground.specs.Mending.{AddsTurned, AreMended, is_turned as was_turned, MayClose, MayMend, MayOpen}, sim_search.specs.Floods.label_in};
ghost use Rattle.std.specs.Prelude.{IfOk, OnOk, [], ◌<◌, ◌≡◌};

use crate::window::{Window, window_of};
use sim_base::{Cell, Global, OutOfMemory, Rect};
use sim_grid::Grid;
use sim_path::Labels;
use sim_search::{mend_closed, mend_opened};
use sim_system::Fact;

// Whether the cell was closed or opened since it was labelled.
fn is_turned(labels: &Labels, grid: &Grid, cell: Cell) -> bool
    requires { IsOnGround grid.now.size cell }
    ensures { result ≡ was_turned grid.now (label_in labels.now) cell }
{
    match labels.of(cell) {
        Some(_) => !grid.open(cell),
        None => grid.open(cell),
    }
}

// Adds the cell if it is one of those.
fn push_turned(
    cells: &mut Vec<Cell>,
    labels: &Labels,
    grid: &Grid,
    cell: Cell,
) -> Result<(), OutOfMemory>
    requires { IsOnGround grid.now.size cell }
    ensures { OnOk result (AddsTurned grid.now (label_in labels.now) (λ c. same_cell c cell) cells.old.items cells.new.items) }
{
    if is_turned(labels, grid, cell) {
        cells.push(cell)?;
    }
    Ok(())
}

// Adds those of a window in one of its rows.
fn push_row(
    cells: &mut Vec<Cell>,
    labels: &Labels,
    grid: &Grid,
    window: Window,
    z: u16,
) -> Result<(), OutOfMemory>
    requires row { z < grid.now.size.depth }
    requires on { LiesOn grid.now.size window }
    ensures { OnOk result (AddsTurned grid.now (label_in labels.now) (in_row z window.west window.east) cells.old.items cells.new.items) }
{
    for x in window.west..window.east {
        push_turned(cells, labels, grid, Cell { x, z })?;
    }
    Ok(())
}

// Those of a rectangle.
fn turned_in(
    alloc: Global,
    labels: &Labels,
    grid: &Grid,
    rect: &Rect,
) -> Result<Vec<Cell>, OutOfMemory>
    ensures { IfOk result (λ cells. AddsTurned grid.now (label_in labels.now) (covers rect.now) [] cells.items) }
{
    let window = window_of(rect, grid);
    let mut cells = Vec::with_capacity(alloc, 16)?;
    for z in window.south..window.north {
        push_row(&mut cells, labels, grid, window, z)?;
    }
    Ok(cells)
}

// The rectangle of what is kept of an entity, if it is an obstruction.
fn rect_of(part: &Option<Fact>) -> Option<Rect>
    ensures { (c : Cell) → part_covers part.now c ≡ rect_covers result c }
{
    match part {
        Some(fact) => fact.rect,
        None => None,
    }
}

// Mends the labels after a rectangle came.
fn closed(alloc: Global, labels: &mut Labels, grid: &Grid, rect: &Rect) -> bool
    requires { MayClose grid.now (covers rect.now) labels.old }
    ensures { AreMended grid.now result labels.old labels.new }
{
    match turned_in(alloc, labels, grid, rect) {
        Ok(cells) => mend_closed(alloc, labels, grid, cells.as_slice()),
        Err(_) => false,
    }
}

// Mends the labels after a rectangle went.
fn opened(alloc: Global, labels: &mut Labels, grid: &Grid, rect: &Rect) -> bool
    requires { MayOpen grid.now (covers rect.now) labels.old }
    ensures { AreMended grid.now result labels.old labels.new }
{
    match turned_in(alloc, labels, grid, rect) {
        Ok(cells) => mend_opened(alloc, labels, grid, cells.as_slice()),
        Err(_) => false,
    }
}

/// Mends the labels of a grid after what was kept of an entity was taken and what is was put down, if one of both has no
/// rectangle and no other label changes; else all stay. It may find no memory to look.
pub fn are_mended(
    alloc: Global,
    labels: &mut Labels,
    grid: &Grid,
    before: &Option<Fact>,
    after: &Option<Fact>,
) -> bool
    requires { MayMend grid.now (part_covers before.now) (part_covers after.now) labels.old }
    ensures { AreMended grid.now result labels.old labels.new }
{
    match (rect_of(before), rect_of(after)) {
        (None, Some(rect)) => closed(alloc, labels, grid, &rect),
        (Some(rect), None) => opened(alloc, labels, grid, &rect),
        _ => false,
    }
}
