//! A living row, and what systems are told of it.

ghost use Rattle.sim_base.specs.{Commands.new_row, declared.template.Template.Template as AnyTemplate, Places.IsPlaced, Rows.{id_of, row_of}};
ghost use Rattle.{sim_board.specs.Boards.IsLooseIn, sim_system.specs.Notes.{fact_of as fact_by, told_of, vision_of as vision_by}};
ghost use Rattle.std.specs.{List.Sorted.IsStrictlyIncreasing, Prelude.{IfOk, IsSome, length, map, slice_get, Some, ◌<◌, ◌≡◌}};

use crate::near::place_near;
use sim_base::{Fixed, Global, OutOfMemory, Point, Row, Setup, State, rect_of};
use sim_plans::{arms_of, target_of, template_at};
use sim_system::{Fact, Facts};

/// What a row that is made is given: the number of its template, its place and its owner.
#[derive(Clone, Copy, Debug)]
pub struct Birth {
    pub number: u16,
    pub at: Point,
    pub owner: u8,
}

/// The row with this id, which is alive. Near which place it stands is a hint.
pub fn living(state: &State, id: u32, near: usize) -> &Row
    requires ids { IsStrictlyIncreasing (map id_of state.now.rows) }
    requires alive { IsSome (row_of state.now id) }
    ensures { row_of state.now id ≡ Some result.now }
{
    let rows = state.rows.as_slice();
    match place_near(rows, id, near) {
        Some(place) => &rows[place],
        None => unreachable!(),
    }
}

// How far a row sees, if it can attack.
fn vision_of(setup: &Setup, row: &Row) -> Option<Fixed>
    ensures { result ≡ vision_by setup.now row.now }
{
    arms_of(setup, row).map(|arms| arms.vision)
}

/// What systems are told of a row.
pub fn fact_of(setup: &Setup, row: &Row) -> Fact
    requires { IsPlaced row.now.at }
    ensures { result ≡ fact_by setup.now row.now }
{
    Fact {
        id: row.id,
        at: row.at,
        owner: row.owner,
        health: row.health.is_some(),
        vision: vision_of(setup, row),
        rect: match template_at(setup, row.template) {
            Some(template) => match template.obstruct {
                Some(base) => Some(rect_of(row.at, base.width, base.depth)),
                None => None,
            },
            None => None,
        },
        target: target_of(row),
    }
}

/// What systems are told of a state.
pub fn told(alloc: Global, setup: &Setup, state: &State) -> Result<Facts, OutOfMemory>
    requires loose { IsLooseIn setup.now state.now }
    ensures { IfOk result (λ facts. facts ≡ told_of setup.now state.now) }
{
    let mut facts = Facts::new(alloc);
    for row in state.rows.as_slice() {
        facts.push(fact_of(setup, row))?;
    }
    Ok(facts)
}

/// What systems are told of a new row of a known template.
pub fn born(setup: &Setup, id: u32, birth: &Birth) -> Fact
    requires number { birth.now.number < length setup.now.templates }
    requires at { IsPlaced birth.now.at }
    ensures { let b = birth.now in
        (t : AnyTemplate) → slice_get setup.now.templates b.number ≡ Some t → result ≡ fact_by setup.now (new_row id b.number b.at b.owner t) }
{
    let template = &setup.templates.as_slice()[usize::from(birth.number)];
    Fact {
        id,
        at: birth.at,
        owner: birth.owner,
        health: template.health.is_some(),
        vision: template.arms.map(|arms| arms.vision),
        rect: template
            .obstruct
            .map(|base| rect_of(birth.at, base.width, base.depth)),
        target: 0,
    }
}
