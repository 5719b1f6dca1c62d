//! Worked rows, each over a board that is started from a match file.

ghost use Rattle.sim_base.specs.Limits.{IsSetup, IsValid};
ghost use Rattle.{sim_board.specs.Boards.{IsWhole, setup_in, systems}, sim_system.specs.{Meanings.HaveKinds, RigWords.systems_of}, std.specs.Prelude.IfOk};

use crate::tests::checks::{answer, can_leave, change};
use sim_base::{Cell, Change, Fixed, Global, Items, OutOfMemory, Point, Setup, State};
use sim_board::{Board, adopt_and_apply, start_and_apply};
use sim_census::Census;
use sim_codec::is_valid;
use sim_ground::Ground;
use sim_range::Range;
use sim_setup::setup_of;
use sim_system::{Answer, Ask, Rig, System};
use sim_watch::Watch;
use std::test::Fail;
use test_runs::rig;

// Two huts of two by two cells: entity 2 on the cells 4,4 to 5,5, entity 3 on 5,4 to 6,5.
const HUTS: &str =
    "{\"size\":[16,16],\"closed\":[],\"players\":[[]],\"cap\":0,\"delay\":1,\"turns\":2,\"seed\":0,\"templates\":[{\"@name\":\"hut\",\"Obstruct\":{\"Width\":2,\"Depth\":2}}],\"entities\":[[\"hut\",1,\"5.5\",\"5.5\"],[\"hut\",1,\"6.5\",\"5.5\"]],\"commands\":[]}";

// Two posts: entity 2 of player 1 at (0.5, 0.5), entity 3 of player 2 at (3.5, 4.5).
const POSTS: &str =
    "{\"size\":[16,16],\"closed\":[],\"players\":[[],[]],\"cap\":0,\"delay\":1,\"turns\":2,\"seed\":0,\"templates\":[{\"@name\":\"post\",\"Health\":{\"Max\":50}}],\"entities\":[[\"post\",1,\"0.5\",\"0.5\"],[\"post\",2,\"3.5\",\"4.5\"]],\"commands\":[]}";

fn is_open(board: &Board<'_>, x: u16, z: u16) -> Result<bool, OutOfMemory>
    requires { IsWhole board.now ⟦<dyn System as System>⟧ }
{
    match answer(
        board,
        &Ask::Open {
            cell: Cell { x, z },
        },
    )? {
        Some(Answer::Truth { yes }) => Ok(yes),
        _ => Ok(false),
    }
}

// Whether the cell (5, 4) is open at the start, after the first hut left, and after the second.
fn opened(board: &mut Board<'_>) -> Result<[bool; 3], OutOfMemory>
    requires limits { IsSetup (setup_in board.old) }
    requires kinds { HaveKinds (systems board.old ⟦<dyn System as System>⟧) }
{
    board.start()?;
    let first = is_open(board, 5, 4)?;
    change(board, Change::Remove { id: 2 })?;
    let second = is_open(board, 5, 4)?;
    change(board, Change::Remove { id: 3 })?;
    Ok([first, second, is_open(board, 5, 4)?])
}

// Starts the board with the removal of an entity, if there is one at the start.
fn start_without(board: &mut Board<'_>, alloc: Global, id: u32) -> Result<bool, OutOfMemory>
    requires limits { IsSetup (setup_in board.old) }
    requires kinds { HaveKinds (systems board.old ⟦<dyn System as System>⟧) }
    ensures { HaveKinds (systems board.new ⟦<dyn System as System>⟧) }
{
    board.start()?;
    let scene = board.scene();
    if !can_leave(scene.setup, scene.state, id) {
        return Ok(false);
    }
    let changes = vec![in alloc; Change::Remove { id }]?;
    start_and_apply(board, Items::from_items(changes))?;
    Ok(true)
}

// Has the board take a state with the removal of an entity, if there is one.
fn adopt_without(
    board: &mut Board<'_>,
    alloc: Global,
    state: State,
    id: u32,
) -> Result<bool, OutOfMemory>
    requires limits { IsSetup (setup_in board.old) }
    requires valid { IsValid (setup_in board.old) state }
    requires kinds { HaveKinds (systems board.old ⟦<dyn System as System>⟧) }
{
    if !can_leave(board.setup(), &state, id) {
        return Ok(false);
    }
    let changes = vec![in alloc; Change::Remove { id }]?;
    adopt_and_apply(board, state, Items::from_items(changes))?;
    Ok(true)
}

// How many rows of player 2 are within five metres of (0.5, 0.5), and the first of them, or 0.
fn enemies(board: &Board<'_>) -> Result<(usize, u32), OutOfMemory>
    requires { IsWhole board.now ⟦<dyn System as System>⟧ }
{
    let half = Fixed::from_raw(32768);
    let ask = Ask::Within {
        at: Point { x: half, z: half },
        radius: Fixed::from_raw(327680),
        mask: 4,
    };
    match answer(board, &ask)? {
        Some(Answer::Many { ids }) => match ids.as_slice() {
            [] => Ok((0, 0)),
            [first, ..] => Ok((ids.as_slice().len(), *first)),
        },
        _ => Ok((9, 0)),
    }
}

// The same at the start, and after entity 3 has come to player 1.
fn turned(board: &mut Board<'_>) -> Result<[(usize, u32); 2], OutOfMemory>
    requires limits { IsSetup (setup_in board.old) }
    requires kinds { HaveKinds (systems board.old ⟦<dyn System as System>⟧) }
{
    board.start()?;
    let first = enemies(board)?;
    change(board, Change::Owner { id: 3, owner: 1 })?;
    Ok([first, enemies(board)?])
}

// The setup of a match file.
fn read_setup(alloc: Global, file: &str) -> Result<Setup, Fail>
    ensures { IfOk result IsSetup }
{
    Ok(setup_of(alloc, file.as_bytes())?)
}

// What is open before and after huts leave, how many rows are left, and how often the ground was built anew.
fn opened_on(alloc: Global, rig: Rig) -> Result<([bool; 3], usize, u64), Fail>
    requires { HaveKinds (systems_of rig ⟦<dyn System as System>⟧) }
{
    let setup = read_setup(alloc, HUTS)?;
    let mut board = Board::new(alloc, &setup, rig);
    let open = opened(&mut board)?;
    let (state, rig) = board.finish();
    Ok((open, state.rows.as_slice().len(), rig.ground.rebuilds()))
}

fn turned_on(alloc: Global, rig: Rig) -> Result<[(usize, u32); 2], Fail>
    requires { HaveKinds (systems_of rig ⟦<dyn System as System>⟧) }
{
    let setup = read_setup(alloc, POSTS)?;
    let mut board = Board::new(alloc, &setup, rig);
    Ok(turned(&mut board)?)
}

// How many rows are left behind a start without the first hut, and behind the adoption of that state without the second, and how often the
// ground was built anew; or nothing, where a list of changes is not made or the state between them is not valid.
fn changed_on(alloc: Global, rig: Rig) -> Result<Option<(usize, usize, u64)>, Fail>
    requires { HaveKinds (systems_of rig ⟦<dyn System as System>⟧) }
{
    let setup = read_setup(alloc, HUTS)?;
    let mut board = Board::new(alloc, &setup, rig);
    let is_made = start_without(&mut board, alloc, 2)?;
    let (state, rig) = board.finish();
    let first = state.rows.as_slice().len();
    if !is_made || !is_valid(&setup, &state) {
        return Ok(None);
    }
    adopted_on(alloc, &setup, state, rig, first)
}

fn adopted_on(
    alloc: Global,
    setup: &Setup,
    state: State,
    rig: Rig,
    first: usize,
) -> Result<Option<(usize, usize, u64)>, Fail>
    requires limits { IsSetup setup.now }
    requires valid { IsValid setup.now state }
    requires kinds { HaveKinds (systems_of rig ⟦<dyn System as System>⟧) }
{
    let mut board = Board::new(alloc, setup, rig);
    let is_made = adopt_without(&mut board, alloc, state, 3)?;
    let (state, rig) = board.finish();
    let rows = state.rows.as_slice().len();
    Ok(is_made.then_some((first, rows, rig.ground.rebuilds())))
}

/// What is tried on a board.
#[derive(Clone, Copy)]
enum Tried {
    Covers,
    Sides,
    Changes,
}

// Whether a board with these systems does what it has to.
fn holds_on(alloc: Global, rig: Rig, tried: Tried) -> Result<bool, Fail>
    requires { HaveKinds (systems_of rig ⟦<dyn System as System>⟧) }
{
    Ok(match tried {
        Tried::Covers => opened_on(alloc, rig)? == ([false, false, true], 0, 1),
        Tried::Sides => turned_on(alloc, rig)? == [(1, 3), (0, 0)],
        Tried::Changes => changed_on(alloc, rig)? == Some((1, 0, 3)),
    })
}

// Whether a board does, with the systems of the game. They are made in this one body, since a function may hand out no boxes.
fn holds(alloc: Global, tried: Tried) -> Result<bool, Fail> {
    let rig = rig!(alloc);
    holds_on(alloc, rig, tried)
}

// A cell that two huts cover opens when the second leaves.
#[test]
fn two_covers_of_one_cell(rt: HostRuntime) -> Result<(), Fail> {
    assert!(rt; holds(rt.alloc(), Tried::Covers)?);
    Ok(())
}

// Who changes sides is no enemy within reach.
#[test]
fn within_after_a_change_of_owner(rt: HostRuntime) -> Result<(), Fail> {
    assert!(rt; holds(rt.alloc(), Tried::Sides)?);
    Ok(())
}

// A list of changes is made behind a start, and behind the adoption of a state.
#[test]
fn changes_behind_a_start_and_an_adoption(rt: HostRuntime) -> Result<(), Fail> {
    assert!(rt; holds(rt.alloc(), Tried::Changes)?);
    Ok(())
}
