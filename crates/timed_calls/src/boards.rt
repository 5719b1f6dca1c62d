//! What changes of a board cost: 4,096 rows with obstructions are created and removed in one turn, over four real systems.

ghost use Rattle.{sim_base.specs.Limits.IsSetup, sim_board.specs.Boards.{IsWhole, setup_in, systems}};
ghost use Rattle.{sim_system.specs.{Meanings.HaveKinds, RigWords.systems_of}, std.specs.Prelude.OnOk};

use sim_base::{Change, Fixed, OutOfMemory, Point};
use sim_board::Board;
use sim_census::Census;
use sim_ground::Ground;
use sim_plans::{find_row, is_inside};
use sim_range::Range;
use sim_setup::setup_of;
use sim_system::{Rig, System};
use sim_watch::Watch;
use std::io;
use std::time::Instant;

const HUTS: &str =
    "{\"size\":[256,256],\"closed\":[],\"players\":[[]],\"cap\":4096,\"delay\":1,\"turns\":1,\"seed\":0,\"templates\":[{\"@name\":\"hut\",\"Obstruct\":{\"Width\":2,\"Depth\":2}}],\"entities\":[],\"commands\":[]}";

// As many rows as a state may have.
const ROWS: u32 = 4096;

/// Prints what the creations and the removals take. The boxes are made in this body, since a function may hand out none.
pub fn measure(rt: &HostRuntime) -> io::Result<()> {
    let alloc = rt.alloc();
    let ground: Box<dyn System> = Box::new(alloc, Ground::new(alloc))?;
    let range: Box<dyn System> = Box::new(alloc, Range::looking(alloc))?;
    let watch: Box<dyn System> = Box::new(alloc, Watch::new(alloc))?;
    let census: Box<dyn System> = Box::new(alloc, Census::new(alloc))?;
    measure_on(rt, HUTS, Rig::new(ground, range, watch, census))
}

// Prints it of a match with these systems. A proof knows nothing of the text, with which it would else reckon letter by letter.
fn measure_on(rt: &HostRuntime, file: &str, rig: Rig) -> io::Result<()>
    requires { HaveKinds (systems_of rig ⟦<dyn System as System>⟧) }
{
    let Ok(setup) = setup_of(rt.alloc(), file.as_bytes()) else {
        return Ok(());
    };
    let mut board = Board::new(rt.alloc(), &setup, rig);
    time_all(rt, &mut board)
}

fn time_all(rt: &HostRuntime, board: &mut Board<'_>) -> io::Result<()>
    requires limits { IsSetup (setup_in board.old) }
    requires kinds { HaveKinds (systems board.old ⟦<dyn System as System>⟧) }
{
    let begin = Instant::now(rt)?;
    if board.start().is_err() {
        return Ok(());
    }
    let started = begin.elapsed(rt)?.as_micros();
    let begin = Instant::now(rt)?;
    if create_all(board).is_err() {
        return Ok(());
    }
    let created = begin.elapsed(rt)?.as_micros();
    let begin = Instant::now(rt)?;
    let Ok(left) = remove_all(board) else {
        return Ok(());
    };
    let removed = begin.elapsed(rt)?.as_micros();
    println!(rt;
        "start {started} us, {ROWS} created {created} us, all but {left} removed {removed} us"
    )
}

// Creates a row, if there is an id and a place for it.
fn create(board: &mut Board<'_>, at: Point) -> Result<(), OutOfMemory>
    requires { IsWhole board.old ⟦<dyn System as System>⟧ }
    ensures { OnOk result (IsWhole board.new ⟦<dyn System as System>⟧) }
{
    let scene = board.scene();
    if scene.setup.templates.as_slice().is_empty()
        || !is_inside(&scene.setup.land, &at)
        || scene.state.rows.as_slice().len() >= 4096
        || scene.state.next >= 0x20000000
    {
        return Ok(());
    }
    board.apply(Change::Create {
        template: 0,
        at,
        owner: 0,
    })
}

fn create_all(board: &mut Board<'_>) -> Result<(), OutOfMemory>
    requires { IsWhole board.old ⟦<dyn System as System>⟧ }
    ensures { OnOk result (IsWhole board.new ⟦<dyn System as System>⟧) }
{
    for x in 0..64u8 {
        create_column(board, x)?;
    }
    Ok(())
}

fn create_column(board: &mut Board<'_>, x: u8) -> Result<(), OutOfMemory>
    requires { IsWhole board.old ⟦<dyn System as System>⟧ }
    ensures { OnOk result (IsWhole board.new ⟦<dyn System as System>⟧) }
{
    for z in 0..64u8 {
        let at = Point {
            x: Fixed::from_raw(i32::from(x) * 262144),
            z: Fixed::from_raw(i32::from(z) * 262144),
        };
        create(board, at)?;
    }
    Ok(())
}

// Removes a row, if it is alive.
fn remove(board: &mut Board<'_>, id: u32) -> Result<(), OutOfMemory>
    requires { IsWhole board.old ⟦<dyn System as System>⟧ }
    ensures { OnOk result (IsWhole board.new ⟦<dyn System as System>⟧) }
{
    if find_row(board.scene().state, id).is_none() {
        return Ok(());
    }
    board.apply(Change::Remove { id })
}

// Removes all rows, and says how many are left.
fn remove_all(board: &mut Board<'_>) -> Result<usize, OutOfMemory>
    requires { IsWhole board.old ⟦<dyn System as System>⟧ }
{
    for id in 0..ROWS {
        remove(board, id + 2)?;
    }
    Ok(board.scene().state.rows.as_slice().len())
}
