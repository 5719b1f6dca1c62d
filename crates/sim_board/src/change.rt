//! The state after a change. No system is told here. Near which place the row of a change stands is a hint.

ghost use Rattle.sim_base.specs.{Commands.{applied, created}, declared.setup.Setup.Setup as SetupOf, Rows.id_of};
ghost use Rattle.{sim_board.specs.{Boards.{IsLooseIn, IsNoCreation, IsNoRemoval}, Letting.left_by}, sim_plans.specs.RowChanges.Fits};
ghost use Rattle.std.specs.{List.Sorted.IsStrictlyIncreasing, Prelude.{IsOk, length, map, OnOk, [], ◌-◌, ◌<◌, ◌^◌, ◌≡◌}};

use crate::edit::{add_row, release_rows, take_row};
use crate::near::place_near;
use crate::row::Birth;
use sim_base::{Change, Global, Items, Motion, OutOfMemory, Row, Setup, State};

/// The state after a change that fits it, where no row leaves. A motion is taken out of the change.
pub fn make(
    alloc: Global,
    setup: &Setup,
    state: &mut State,
    change: &mut Change,
    near: usize,
) -> Result<(), OutOfMemory>
    requires loose { IsLooseIn setup.now state.old }
    requires fits { Fits setup.now state.old change.old }
    requires stays { IsNoRemoval change.old }
    ensures applied { OnOk result (state.new ≡ applied setup.now state.old change.old) }
    ensures sure { IsNoCreation change.old → IsOk result }
{
    if let Change::Create {
        template,
        at,
        owner,
    } = change
    {
        let birth = Birth {
            number: *template,
            at: *at,
            owner: *owner,
        };
        return create(alloc, setup, state, &birth);
    }
    let mut rows = take_rows(alloc, state);
    set(&mut rows, state, change, near);
    state.rows = Items::from_items(rows);
    Ok(())
}

// Sets what the change gives: in the row with its id, or of the state beside its rows.
fn set(rows: &mut Vec<Row>, state: &mut State, change: &mut Change, near: usize)
    requires rows { IsStrictlyIncreasing (map id_of rows.old.items) }
    requires turn { state.old.turn < 2 ^ 32 - 1 }
    requires stays { IsNoRemoval change.old }
    requires comes { IsNoCreation change.old }
    ensures { (setup : SetupOf) → record state.new { rows = rows.new.items } ≡ applied setup (record state.old { rows = rows.old.items }) change.old }
{
    match change {
        Change::Move { id, at } => {
            if let Some(place) = place_near(rows.as_slice(), *id, near) {
                rows[place].at = *at;
            }
        }
        Change::Motion { id, motion } => {
            if let Some(place) = place_near(rows.as_slice(), *id, near) {
                rows[place].motion = Some(std::mem::replace(motion, Motion::Still));
            }
        }
        Change::Attack { id, aim } => {
            if let Some(place) = place_near(rows.as_slice(), *id, near) {
                rows[place].attack = Some(*aim);
            }
        }
        Change::Health { id, health } => {
            if let Some(place) = place_near(rows.as_slice(), *id, near) {
                rows[place].health = Some(*health);
            }
        }
        Change::Owner { id, owner } => {
            if let Some(place) = place_near(rows.as_slice(), *id, near) {
                rows[place].owner = *owner;
            }
        }
        Change::Word { word } => state.word = *word,
        Change::Tick => state.turn += 1,
        Change::Create { .. } | Change::Remove { .. } => unreachable!(),
    }
}

/// The rows of these watchers are released, and then the row with the id leaves.
pub fn remove(alloc: Global, state: &mut State, id: u32, watchers: &[u32], near: usize)
    requires { IsStrictlyIncreasing (map id_of state.old.rows) }
    ensures { state.new ≡ left_by id watchers.now state.old }
{
    let mut rows = take_rows(alloc, state);
    release_rows(&mut rows, watchers);
    take_row(&mut rows, id, near);
    state.rows = Items::from_items(rows);
}

/// Takes the rows out of a state.
pub fn take_rows(alloc: Global, state: &mut State) -> Vec<Row>
    ensures rows { result.items ≡ state.old.rows }
    ensures state { state.new ≡ record state.old { rows = [] } }
{
    let rows = std::mem::replace(&mut state.rows, Items::new(alloc));
    rows.into_items()
}

/// A new row of a known template.
pub fn create(
    alloc: Global,
    setup: &Setup,
    state: &mut State,
    birth: &Birth,
) -> Result<(), OutOfMemory>
    requires number { birth.now.number < length setup.now.templates }
    requires next { state.old.next < 0x20000000 }
    ensures { OnOk result (state.new ≡ created setup.now state.old birth.now.number birth.now.at birth.now.owner) }
{
    let template = &setup.templates.as_slice()[usize::from(birth.number)];
    let id = state.next;
    let mut rows = take_rows(alloc, state);
    let added = add_row(&mut rows, id, birth, template);
    state.rows = Items::from_items(rows);
    added?;
    state.next = id + 1;
    Ok(())
}
