//! Labels of a ground on which some cells were closed or opened, where a look nearby tells that all others keep theirs.
//! Elsewhere the labels are made anew.

ghost use Rattle.std.specs.Prelude.{All, false, Some, true, ℕ, ◌≡◌, ◌⊎◌};
ghost use Rattle.sim_search.specs.Floods.{AreAlike, AreLabels, AreOpen, AreOthersKept, IsBeside, IsMore, IsNextTo, IsNotFirst, label_in, labelled, Mends};
ghost use Rattle.sim_search.specs.{Common.field_of_grid, Common.place_of, Floods.Suits};

use crate::labels::Labels;
use crate::region::{are_joined, rim_of};
use sim_base::{Cell, Global};
use sim_grid::Grid;

// The place of a cell among those of the ground.
fn place_in(grid: &Grid, cell: Cell) -> u32
    ensures { result ≡ place_of grid.now.size cell }
{
    u32::from(cell.z) * u32::from(grid.width()) + u32::from(cell.x)
}

// Whether a cell is the first of its region.
fn is_first(labels: &Labels, grid: &Grid, cell: Cell) -> bool
    ensures { result ≡ false → IsNotFirst grid.now.size (label_in labels.now) cell }
{
    match labels.of(cell) {
        Some(label) => label == place_in(grid, cell),
        None => false,
    }
}

// Whether none of these cells is the first of its region.
fn is_none_first(labels: &Labels, grid: &Grid, cells: &[Cell]) -> bool
    ensures { result ≡ true → All (IsNotFirst grid.now.size (label_in labels.now)) cells.now }
{
    for cell in cells {
        if is_first(labels, grid, *cell) {
            return false;
        }
    }
    true
}

// Whether the labels of all other cells stay where these were closed, beside which lie those of the rim. False says nothing.
fn are_others_kept(
    alloc: Global,
    labels: &Labels,
    grid: &Grid,
    cells: &[Cell],
    rim: &[Cell],
) -> bool
    requires { AreOpen (field_of_grid grid.now) rim.now }
    ensures { result ≡ true → AreOthersKept (field_of_grid grid.now) (label_in labels.now) cells.now rim.now }
{
    if rim.is_empty() {
        return true;
    }
    if !is_none_first(labels, grid, cells) {
        return false;
    }
    are_joined(alloc, grid, rim)
}

/// Takes the labels of cells that were closed, if no other label changes by that; else all stay. It may find no memory to
/// look.
pub fn mend_closed(alloc: Global, labels: &mut Labels, grid: &Grid, cells: &[Cell]) -> bool
    requires labels { AreLabels (labelled grid.now.size (label_in labels.old)) (label_in labels.old) }
    requires closed { IsMore (labelled grid.now.size (label_in labels.old)) (field_of_grid grid.now) cells.now }
    ensures { Mends (field_of_grid grid.now) labels.old labels.new result }
{
    let Ok(rim) = rim_of(alloc, grid, cells) else {
        return false;
    };
    if !are_others_kept(alloc, labels, grid, cells, rim.as_slice()) {
        return false;
    }
    labels.forget(cells);
    true
}

// The label of a cell beside this one, if one has a label.
fn label_beside(labels: &Labels, grid: &Grid, cell: Cell) -> Option<u32>
    ensures { (l : ℕ) → result ≡ Some l → IsNextTo grid.now.size (label_in labels.now) l cell }
{
    for which in 0..4u8 {
        if let Some(beside) = grid.neighbour(cell, which) {
            let label = labels.of(beside);
            if label.is_some() {
                return label;
            }
        }
    }
    None
}

// The label of a cell beside one of these, if one has a label.
fn label_about(labels: &Labels, grid: &Grid, cells: &[Cell]) -> Option<u32>
    ensures { (l : ℕ) → result ≡ Some l → IsBeside grid.now.size (label_in labels.now) cells.now l }
{
    for cell in cells {
        let label = label_beside(labels, grid, *cell);
        if label.is_some() {
            return label;
        }
    }
    None
}

// The label that these cells have if they have one: that of a cell beside one of them, or else the place of the first.
fn label_for(labels: &Labels, grid: &Grid, cells: &[Cell], first: Cell) -> u32
    ensures { IsBeside grid.now.size (label_in labels.now) cells.now result ⊎ (result ≡ place_of grid.now.size first) }
{
    match label_about(labels, grid, cells) {
        Some(label) => label,
        None => place_in(grid, first),
    }
}

// Whether this cell, if there is one, has no other label.
fn is_alike(labels: &Labels, beside: Option<Cell>, label: u32) -> bool
    ensures { result ≡ true → (b : Cell) (l : ℕ) → beside ≡ Some b → label_in labels.now b ≡ Some l → l ≡ label }
{
    match beside {
        Some(cell) => match labels.of(cell) {
            Some(other) => other == label,
            None => true,
        },
        None => true,
    }
}

// Whether no cell beside this one has another label.
fn are_alike(labels: &Labels, grid: &Grid, cell: Cell, label: u32) -> bool
    ensures { result ≡ true → AreAlike grid.now.size (label_in labels.now) label cell }
{
    for which in 0..4u8 {
        if !is_alike(labels, grid.neighbour(cell, which), label) {
            return false;
        }
    }
    true
}

// Whether this label suits a cell.
fn suits(labels: &Labels, grid: &Grid, cell: Cell, label: u32) -> bool
    ensures { result ≡ true → Suits labels.now grid.now.size label cell }
{
    if !labels.has(cell) {
        return false;
    }
    if place_in(grid, cell) < label {
        return false;
    }
    are_alike(labels, grid, cell, label)
}

// Whether this label suits all of these cells.
fn suits_all(labels: &Labels, grid: &Grid, cells: &[Cell], label: u32) -> bool
    ensures { result ≡ true → All (Suits labels.now grid.now.size label) cells.now }
{
    for cell in cells {
        if !suits(labels, grid, *cell, label) {
            return false;
        }
    }
    true
}

/// Gives cells that were opened their label, if no other label changes by that; else all stay. It may find no memory to
/// look.
pub fn mend_opened(alloc: Global, labels: &mut Labels, grid: &Grid, cells: &[Cell]) -> bool
    requires labels { AreLabels (labelled grid.now.size (label_in labels.old)) (label_in labels.old) }
    requires opened { IsMore (field_of_grid grid.now) (labelled grid.now.size (label_in labels.old)) cells.now }
    ensures { Mends (field_of_grid grid.now) labels.old labels.new result }
{
    if cells.is_empty() {
        return false;
    }
    let first = cells[0];
    let label = label_for(labels, grid, cells, first);
    if !suits_all(labels, grid, cells, label) || !are_joined(alloc, grid, cells) {
        return false;
    }
    labels.give(cells, label);
    true
}
