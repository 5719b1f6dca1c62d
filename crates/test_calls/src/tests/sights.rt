//! What an observer sees who has kept a list of states, and who joins later with the explored cells of a file. The numbers were
//! worked out by hand.

ghost use Rattle.{sim_base.specs.Limits.{IsSetup, IsValid}, std.specs.Prelude.IfOk};

use sim_base::{Aim, Cell, Fixed, Global, Items, OutOfMemory, Row, Setup, State, centre_of};
use sim_codec::is_valid;
use sim_setup::setup_of;
use sim_vision::{Sight, push_sight};
use std::test::Fail;

// A ground of 8 by 8 cells with two players, whose bows see one metre far.
const BOWS: &str =
    r#"{"size":[8,8],"closed":[],"players":[[],[]],"cap":0,"delay":1,"turns":0,"seed":0,"templates":[{"@name":"bow","Health":{"Max":10},"Attack":{"Range":0,"Vision":1,"Repeat":0}}],"entities":[],"commands":[]}"#;

// A bow: its id, its owner, and the x and the z of its cell.
type Place = (u32, u8, u8, u8);

fn setup(alloc: Global) -> Result<Setup, Fail>
    ensures { IfOk result IsSetup }
{
    match setup_of(alloc, BOWS.as_bytes()) {
        Ok(setup) => Ok(setup),
        Err(_) => Err(Fail::from("no match")),
    }
}

// A state of the match with a bow at each of these places.
fn valid_state(alloc: Global, setup: &Setup, places: &[Place]) -> Result<State, Fail>
    ensures { IfOk result (IsValid setup.now) }
{
    let state = state_of(alloc, places)?;
    if !is_valid(setup, &state) {
        return Err(Fail::from("no state of the match"));
    }
    Ok(state)
}

fn state_of(alloc: Global, places: &[Place]) -> Result<State, OutOfMemory> {
    let mut rows = Items::new(alloc);
    for (id, owner, x, z) in places {
        rows.push(bow(*id, *owner, *x, *z))?;
    }
    Ok(State {
        turn: 0,
        next: 100,
        word: 0,
        rows,
    })
}

fn bow(id: u32, owner: u8, x: u8, z: u8) -> Row {
    Row {
        id,
        template: 0,
        at: centre_of(Cell {
            x: u16::from(x),
            z: u16::from(z),
        }),
        owner,
        health: Some(Fixed::from_raw(655_360)),
        motion: None,
        attack: Some(Aim {
            target: 0,
            cooldown: 0,
            hold: false,
        }),
    }
}

#[test]
fn a_file_leads_on(rt: HostRuntime) -> Result<(), Fail> {
    let setup = setup(rt.alloc())?;
    let states = [
        valid_state(rt.alloc(), &setup, &[(2, 1, 0, 0), (3, 2, 4, 4)])?,
        valid_state(rt.alloc(), &setup, &[(2, 1, 1, 0), (3, 2, 4, 4)])?,
    ];
    let mut sight = Sight::new(rt.alloc(), &setup)?;
    sight.follow_each(&states)?;
    let bytes = sight.explored_bytes(rt.alloc())?;
    let mut joined = Sight::join(rt.alloc(), &setup, &states[1], &bytes)?;
    joined.follow(&valid_state(rt.alloc(), &setup, &[(2, 1, 2, 0)])?)?;
    let mut text = String::new(rt.alloc());
    push_sight(&joined, &mut text)?;
    assert_eq!(rt;
        text.as_str(),
        "sight 1 visible 4 explored 7\nsight 2 visible 0 explored 5\n"
    );
    Ok(())
}
