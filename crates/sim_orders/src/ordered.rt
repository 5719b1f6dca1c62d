//! The changes of the rows that a command orders, row by row.

ghost use Rattle.sim_base.specs.{Commands.is_ordered, declared.{change.Change.TheVariants.{Owner, Remove}, state.Row.Row as AnyRow}, Rows.id_of};
ghost use Rattle.{sim_orders.specs.Orders.OwnsNone, sim_plans.specs.Plans.{sent_changes, set_on_changes, stop_changes}};
ghost use Rattle.std.specs.{List.flat_map, Prelude.{filter, IfOk, if◌then◌else◌, IsOk, map, None, OnOk, [], ◌++◌, ◌==◌, ◌∷◌, ◌≡◌}};

use crate::named::Named;
use sim_base::{Change, Changes, Global, Items, Motion, OutOfMemory, Point, Row};
use sim_plans::{push_stance, push_stand};

/// The player's rows that are named are sent to a point.
pub fn sent(
    alloc: Global,
    rows: &[Row],
    player: u8,
    ids: &Named,
    to: &Point,
) -> Result<Changes, OutOfMemory>
    ensures { IfOk result (λ changes. changes ≡ flat_map (λ row. if is_ordered player ids.now.ids row then sent_changes to.now row else []) rows.now) }
{
    let mut changes = Items::new(alloc);
    let mut next = 0;
    for row in rows {
        if ids.orders(player, row, next) {
            next = next.saturating_add(1);
            push_sent(alloc, &mut changes, to, row)?;
        }
    }
    Ok(changes)
}

// The row goes to a point, if it can move, forgets its target and holds its place no more.
fn push_sent(alloc: Global, changes: &mut Changes, to: &Point, row: &Row) -> Result<(), OutOfMemory>
    ensures value { OnOk result (changes.new ≡ changes.old ++ sent_changes to.now row.now) }
    ensures light { row.now.motion ≡ None → IsOk result }
{
    if row.motion.is_none() {
        return Ok(());
    }
    let motion = Motion::Going {
        goal: *to,
        way: Items::new(alloc),
        whole: false,
    };
    changes.push(Change::Motion { id: row.id, motion })?;
    push_stance(changes, 0, false, row)
}

/// The player's rows that are named are released, and those that can attack hold their places.
pub fn stopped(alloc: Global, rows: &[Row], player: u8, ids: &Named) -> Result<Changes, OutOfMemory>
    ensures { IfOk result (λ changes. changes ≡ flat_map (λ row. if is_ordered player ids.now.ids row then stop_changes row else []) rows.now) }
{
    let mut changes = Items::new(alloc);
    let mut next = 0;
    for row in rows {
        if ids.orders(player, row, next) {
            next = next.saturating_add(1);
            push_stand(&mut changes, 0, true, row)?;
        }
    }
    Ok(changes)
}

/// The player's rows that are named are set on a target.
pub fn set_on(
    alloc: Global,
    rows: &[Row],
    player: u8,
    ids: &Named,
    target: u32,
) -> Result<Changes, OutOfMemory>
    ensures { IfOk result (λ changes. changes ≡ flat_map (λ row. if is_ordered player ids.now.ids row then set_on_changes target row else []) rows.now) }
{
    let mut changes = Items::new(alloc);
    let mut next = 0;
    for row in rows {
        if ids.orders(player, row, next) {
            next = next.saturating_add(1);
            push_set_on(&mut changes, target, row)?;
        }
    }
    Ok(changes)
}

// The row takes a target, stands still and holds its place no more, if it can attack.
fn push_set_on(changes: &mut Changes, target: u32, row: &Row) -> Result<(), OutOfMemory>
    ensures value { OnOk result (changes.new ≡ changes.old ++ set_on_changes target row.now) }
    ensures light { row.now.attack ≡ None → IsOk result }
{
    if row.attack.is_none() {
        return Ok(());
    }
    push_stand(changes, target, false, row)
}

/// The player's rows that are named leave.
pub fn deleted(alloc: Global, rows: &[Row], player: u8, ids: &Named) -> Result<Changes, OutOfMemory>
    ensures { IfOk result (λ changes. changes ≡ map (λ id. Remove id) (map id_of (filter (is_ordered player ids.now.ids) rows.now))) }
{
    let mut changes = Items::new(alloc);
    let mut next = 0;
    for row in rows {
        if ids.orders(player, row, next) {
            next = next.saturating_add(1);
            changes.push(Change::Remove { id: row.id })?;
        }
    }
    Ok(changes)
}

/// The player's rows become Gaia's.
pub fn resigned(alloc: Global, rows: &[Row], player: u8) -> Result<Changes, OutOfMemory>
    ensures value { IfOk result (λ changes. changes ≡ flat_map (λ (row : AnyRow). if row.owner == player then Owner row.id 0 ∷ [] else []) rows.now) }
    ensures light { OwnsNone player rows.now → IsOk result }
{
    let mut changes = Items::new(alloc);
    for row in rows {
        if row.owner == player {
            changes.push(Change::Owner {
                id: row.id,
                owner: 0,
            })?;
        }
    }
    Ok(changes)
}
