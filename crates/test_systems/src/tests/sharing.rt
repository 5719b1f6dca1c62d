//! Runs over grounds that share the rooms of their searches, beside runs over grounds that keep nothing from one search to the next. In a
//! session the clients are at turns of their own, so that those who share rooms ask over grounds on which other buildings stand.

ghost use Rattle.std.specs.Prelude.{◌≡◌, IfOk};

use crate::tests::runs::{ended, print_on};
use sim_base::{Global, Land, OutOfMemory};
use sim_census::Census;
use sim_ground::{Ground, Rooms};
use sim_range::Range;
use sim_system::{Answer, Ask, Fact, Kind, Note, Rig, System};
use sim_top::Status;
use sim_watch::Watch;
use std::rc::Rc;
use std::test::Fail;
use test_runs::{Printed, add_rig, rig_of};

// Walkers on a ground of walls with a gap at one end each, so that ways wind from side to side; a match up to its commands.
const LAND: &str =
    r#"{"size":[40,36],"closed":[[0,6,35,6],[4,13,39,13],[0,20,35,20],[4,27,39,27]],"players":[[],[],[]],"cap":9,"delay":2,"turns":60,"seed":3,"templates":[{"@name":"walker","Motion":{"Speed":30}},{"@name":"hut","Obstruct":{"Width":2,"Depth":2}}],"entities":[["walker",1,"1.5","1.5"],["walker",2,"1.5","1.5"],["walker",3,"38.5","34.5"],["walker",1,"20.5","16.5"]],"commands":["#;

// Commands by which huts are placed in the gaps and deleted, while the walkers go back and forth.
const COMMANDS: &str =
    r#"[1,1,"walk",[2,5],"38.5","34.5"],[1,2,"walk",[3],"38.5","34.5"],[1,3,"walk",[4],"1.5","1.5"],[3,1,"place",1,"37.5","6.5"],[4,1,"walk",[2],"38.5","34.5"],[4,2,"walk",[3],"37.5","6.5"],[6,1,"delete",[6]],[7,1,"walk",[2],"38.5","34.5"],[7,2,"walk",[3],"20.5","6.5"],[9,3,"place",1,"2.5","27.5"],[10,3,"walk",[4],"1.5","1.5"],[12,3,"delete",[7]],[13,3,"walk",[4],"1.5","1.5"]"#;

// What is ordered in a session: in each round one of these, before each client plays a turn.
static ORDERS: [&str; 12] = [
    r#"["order",1,"walk",[2,5],"38.5","34.5"],["order",2,"walk",[3],"38.5","34.5"],"#,
    r#"["order",3,"walk",[4],"1.5","1.5"],"#,
    r#"["order",1,"place",1,"37.5","6.5"],"#,
    r#"["order",2,"walk",[3],"38.5","34.5"],["order",1,"walk",[2],"37.5","6.5"],"#,
    r#"["order",3,"walk",[4],"20.5","13.5"],"#,
    r#"["order",1,"delete",[6]],"#,
    r#"["order",2,"walk",[3],"38.5","34.5"],["order",1,"walk",[2],"38.5","34.5"],"#,
    r#"["order",3,"place",1,"2.5","27.5"],"#,
    r#"["order",3,"walk",[4],"1.5","1.5"],["order",1,"walk",[5],"38.5","34.5"],"#,
    r#"["order",2,"place",1,"37.5","20.5"],"#,
    r#"["order",3,"delete",[7]],["order",2,"walk",[3],"1.5","1.5"],"#,
    r#"["order",3,"walk",[4],"1.5","1.5"],["order",1,"walk",[2],"38.5","34.5"],"#,
];

// A turn of each client. They hear what is said in pieces, so that none knows as much as another.
const ROUND: &str =
    r#"["play",1],["up",1],["up",1],["up",1],["down",1],["down",1],["down",1],["down",1],["down",1],["down",1],["play",2],["up",2],["up",2],["up",2],["down",2],["down",2],["down",2],["down",2],["down",2],["play",3],["up",3],["up",3],["up",3],["down",3],["down",3],["down",3],["down",3],["down",3],["down",3],["down",3],"#;

/// Systems of which the ground forgets before each question what its searches have kept.
#[derive(Drop)]
struct Forgetful<S: System> {
    system: S,
    rooms: Rc<Rooms>,
}

impl<S: System> Forgetful<S> {
    fn new(system: S, rooms: Rc<Rooms>) -> Forgetful<S>
        ensures { ⟦<Forgetful<S> as System>⟧.meaning result ≡ S.meaning system }
    {
        Forgetful { system, rooms }
    }
}

impl<S: System> System for Forgetful<S> {
    ghost meaning = { λ forgetful. S.meaning forgetful.system };

    fn kind(&self) -> Kind {
        self.system.kind()
    }

    fn clear(&mut self) {
        self.system.clear();
    }

    fn rebuild(&mut self, land: &Land, facts: &[Fact]) -> Result<(), OutOfMemory> {
        self.system.rebuild(land, facts)
    }

    fn on(&mut self, note: &Note) -> Result<(), OutOfMemory> {
        self.system.on(note)
    }

    fn ask(&self, ask: &Ask) -> Result<Answer, OutOfMemory> {
        let _ = self.rooms.take();
        self.system.ask(ask)
    }

    fn rebuilds(&self) -> u64 {
        self.system.rebuilds()
    }
}

// The texts, one behind another.
fn joined(alloc: Global, texts: &[&str]) -> Result<String, OutOfMemory> {
    let mut all = String::new(alloc);
    for text in texts {
        all.push_str(text)?;
    }
    Ok(all)
}

// The match with these commands.
fn match_of(alloc: Global, commands: &str) -> Result<String, OutOfMemory> {
    joined(alloc, &[LAND, commands, "]}"])
}

// The steps of a session: the orders, and behind them some rounds more.
fn steps(alloc: Global) -> Result<String, OutOfMemory> {
    let orders = orders_of(alloc, &ORDERS, ROUND)?;
    let more = rounds(alloc, ROUND, 8)?;
    joined(
        alloc,
        &[
            "{\"clients\":3,\"steps\":[",
            orders.as_str(),
            more.as_str(),
            "[\"play\",1]]}",
        ],
    )
}

// Each order with two rounds behind it.
fn orders_of(alloc: Global, orders: &[&str], round: &str) -> Result<String, OutOfMemory> {
    let mut all = String::new(alloc);
    for order in orders {
        all.push_str(order)?;
        all.push_str(round)?;
        all.push_str(round)?;
    }
    Ok(all)
}

fn rounds(alloc: Global, round: &str, many: u8) -> Result<String, OutOfMemory> {
    let mut all = String::new(alloc);
    for _ in 0..many {
        all.push_str(round)?;
    }
    Ok(all)
}

// Runs the words over grounds that forget, each with rooms of its own.
fn forgetting(
    alloc: Global,
    words: &[&str],
    files: &[(&str, &[u8])],
) -> Result<Printed, OutOfMemory> {
    let mut rigs = Vec::with_capacity(alloc, 8)?;
    for _ in 0..8u8 {
        let rooms = Rc::new(alloc, Rooms::new())?;
        let ground = Ground::sharing(alloc, rooms.clone()?);
        let rig = rig_of!(
            alloc;
            Forgetful::new(ground, rooms), Range::looking(alloc), Watch::new(alloc), Census::new(alloc)
        );
        add_rig(&mut rigs, rig)?;
    }
    print_on(alloc, words, files, rigs)
}

// Runs them over grounds that share their rooms.
fn sharing(alloc: Global, words: &[&str], files: &[(&str, &[u8])]) -> Result<Printed, OutOfMemory> {
    let rooms = Rc::new(alloc, Rooms::new())?;
    let mut rigs = Vec::with_capacity(alloc, 8)?;
    for _ in 0..8u8 {
        let rig = rig_of!(
            alloc;
            Ground::sharing(alloc, rooms.clone()?), Range::looking(alloc), Watch::new(alloc), Census::new(alloc)
        );
        add_rig(&mut rigs, rig)?;
    }
    print_on(alloc, words, files, rigs)
}

// Whether both runs end well and print the same, which is this long.
fn are_alike(
    alloc: Global,
    words: &[&str],
    files: &[(&str, &[u8])],
    long: usize,
) -> Result<bool, OutOfMemory> {
    let forgotten = forgetting(alloc, words, files)?;
    let shared = sharing(alloc, words, files)?;
    Ok(are_both(&forgotten, &shared) && shared.text.len() == long)
}

fn are_both(forgotten: &Printed, shared: &Printed) -> bool {
    forgotten.status == Status::Done && ended(shared, Status::Done, forgotten.text.as_str())
}

// Whether that is so of a match with these commands, played and rejoined.
fn are_states_alike(alloc: Global, commands: &str) -> Result<[bool; 2], OutOfMemory> {
    let file = match_of(alloc, commands)?;
    let files: &[(&str, &[u8])] = &[("m", file.as_bytes())];
    let played = are_alike(alloc, &["play", "m"], files, 2491)?;
    Ok([
        played,
        are_alike(alloc, &["rejoin", "m", "8"], files, 4829)?,
    ])
}

#[test]
fn shared_rooms_change_no_state(rt: HostRuntime) -> Result<(), Fail> {
    assert_eq!(rt; are_states_alike(rt.alloc(), COMMANDS)?, [true, true]);
    Ok(())
}

// Whether that is so of a session on the match with no commands.
fn are_sessions_alike(alloc: Global) -> Result<bool, OutOfMemory> {
    let (land, steps) = (match_of(alloc, "")?, steps(alloc)?);
    let files: &[(&str, &[u8])] = &[("m", land.as_bytes()), ("s", steps.as_bytes())];
    are_alike(alloc, &["session", "m", "s"], files, 5629)
}

#[test]
fn shared_rooms_change_no_session(rt: HostRuntime) -> Result<(), Fail> {
    assert!(rt; are_sessions_alike(rt.alloc())?);
    Ok(())
}
