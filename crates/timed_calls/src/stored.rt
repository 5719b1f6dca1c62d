//! What a stored state costs where it costs most: one of 4,096 entities that have every part and a way of 45 waypoints,
//! 1.7 MB. It is made by hand, so that no match has to be played to it.

ghost use Rattle.std.specs.Prelude.{IfOk, length, ◌≡◌};
ghost use Rattle.sim_base.specs.Limits.{IsLand, IsSetup, IsTemplate, IsValid};

use sim_base::{
    Aim, Arms, Fixed, Global, Harm, Items, Land, Motion, Name, OutOfMemory, Point, Resist, Row,
    Setup, State, Template,
};
use sim_codec::{digest, is_valid, load, spell};
use sim_diff::difference;
use sim_report::push_show;
use std::io;
use std::time::Instant;

const CALLS: usize = 20;

const WAYPOINTS: u8 = 45;

/// What is timed.
#[derive(Clone, Copy, Debug)]
enum Work {
    Validate,
    Spell,
    Digest,
    Load,
    Show,
    Compare,
}

const WORKS: [Work; 6] = [
    Work::Validate,
    Work::Spell,
    Work::Digest,
    Work::Load,
    Work::Show,
    Work::Compare,
];

/// Prints the figures.
pub fn measure(rt: &HostRuntime) -> io::Result<()> {
    let Ok(setup) = fight(rt.alloc()) else {
        return Ok(());
    };
    match crowd(rt.alloc()) {
        Ok(state) => measure_state(rt, &setup, &state),
        Err(_) => Ok(()),
    }
}

// Prints what the fastest of some calls took, for each kind of work.
fn measure_state(rt: &HostRuntime, setup: &Setup, state: &State) -> io::Result<()>
    requires { IsSetup setup.now }
{
    if !is_valid(setup, state) {
        return Ok(());
    }
    let Ok(bytes) = spell(rt.alloc(), setup, state) else {
        return Ok(());
    };
    match load(rt.alloc(), setup, &bytes) {
        Ok(other) => measure_all(rt, setup, &bytes, state, &other),
        Err(_) => Ok(()),
    }
}

fn measure_all(
    rt: &HostRuntime,
    setup: &Setup,
    bytes: &[u8],
    state: &State,
    other: &State,
) -> io::Result<()>
    requires limits { IsSetup setup.now }
    requires state { IsValid setup.now state.now }
    requires other { IsValid setup.now other.now }
{
    println!(rt;
        "{} bytes, {} rows",
        bytes.len(),
        state.rows.as_slice().len()
    )?;
    for work in WORKS {
        let best = best_of_calls(rt, work, setup, bytes, state, other)?;
        println!(rt; "{work:?}: {best} us")?;
    }
    Ok(())
}

// The microseconds of the fastest call.
fn best_of_calls(
    rt: &HostRuntime,
    work: Work,
    setup: &Setup,
    bytes: &[u8],
    state: &State,
    other: &State,
) -> io::Result<u128>
    requires limits { IsSetup setup.now }
    requires state { IsValid setup.now state.now }
    requires other { IsValid setup.now other.now }
{
    let mut best = u128::MAX;
    for _ in 0..CALLS {
        let begin = Instant::now(rt)?;
        do_once(rt.alloc(), work, setup, bytes, state, other);
        best = best.min(begin.elapsed(rt)?.as_micros());
    }
    Ok(best)
}

fn do_once(alloc: Global, work: Work, setup: &Setup, bytes: &[u8], state: &State, other: &State)
    requires limits { IsSetup setup.now }
    requires state { IsValid setup.now state.now }
    requires other { IsValid setup.now other.now }
{
    match work {
        Work::Validate => {
            let _ = is_valid(setup, state);
        }
        Work::Spell => {
            let _ = spell(alloc, setup, state);
        }
        Work::Digest => {
            let _ = digest(setup, state);
        }
        Work::Load => {
            let _ = load(alloc, setup, bytes);
        }
        Work::Show => show(alloc, setup, state),
        Work::Compare => {
            let _ = difference(state, other);
        }
    }
}

fn show(alloc: Global, setup: &Setup, state: &State)
    requires { IsValid setup.now state.now }
{
    let mut text = String::new(alloc);
    let _ = push_show(setup, state, &mut text);
}

// A match of one player on 64 by 64 cells, with one template.
fn fight(alloc: Global) -> Result<Setup, OutOfMemory>
    ensures { IfOk result IsSetup }
{
    Ok(Setup {
        id: [7; 16],
        land: open_land(alloc)?,
        players: 1,
        cap: 4096,
        delay: 1,
        turns: 1,
        seed: 0,
        templates: Items::from_items(vec![in alloc; guard(alloc)?]?),
        first: Items::new(alloc),
        commands: Items::new(alloc),
    })
}

fn open_land(alloc: Global) -> Result<Land, OutOfMemory>
    ensures land { IfOk result IsLand }
    ensures masks { IfOk result (λ land. length land.masks ≡ 2) }
{
    Ok(Land {
        width: 64,
        depth: 64,
        closed: Items::new(alloc),
        masks: Items::from_items(vec![in alloc; 0, 0]?),
    })
}

// A fighter with every part that an entity can have.
fn guard(alloc: Global) -> Result<Template, OutOfMemory>
    ensures { IfOk result (IsTemplate 1) }
{
    let strike = Harm {
        hack: raw(65_536),
        pierce: raw(0),
        crush: raw(0),
    };
    Ok(Template {
        name: Name::of(alloc, "guard")?.ok_or(OutOfMemory)?,
        health: Some(raw(3_276_800)),
        resist: Resist {
            hack: 0,
            pierce: 0,
            crush: 0,
        },
        speed: Some(raw(655_360)),
        obstruct: None,
        arms: Some(Arms {
            harm: strike,
            range: raw(131_072),
            vision: raw(655_360),
            repeat: 3,
            accuracy: 100,
        }),
        train: None,
    })
}

// A number by its raw, in units of 1/65536.
fn raw(raw: i32) -> Fixed
    ensures { result ≡ raw }
{
    Fixed::from_raw(raw)
}

// 4,096 fighters, each on its way and aiming at the first.
fn crowd(alloc: Global) -> Result<State, OutOfMemory> {
    let mut rows = Items::new(alloc);
    for id in 2..4098u32 {
        rows.push(fighter(alloc, id)?)?;
    }
    Ok(State {
        turn: 1,
        next: 4098,
        word: 0,
        rows,
    })
}

fn fighter(alloc: Global, id: u32) -> Result<Row, OutOfMemory> {
    let aim = Aim {
        target: if id == 2 { 0 } else { 2 },
        cooldown: 1,
        hold: false,
    };
    let corner = Point {
        x: raw(0),
        z: raw(0),
    };
    Ok(Row {
        id,
        template: 0,
        at: corner,
        owner: 1,
        health: Some(raw(3_276_800)),
        motion: Some(Motion::Going {
            goal: corner,
            way: way(alloc)?,
            whole: true,
        }),
        attack: Some(aim),
    })
}

// Waypoints along the ground.
fn way(alloc: Global) -> Result<Items<Point>, OutOfMemory> {
    let mut way = Items::new(alloc);
    for x in 0..WAYPOINTS {
        way.push(Point {
            x: raw(i32::from(x) * 65_536 + 32_768),
            z: raw(65_536),
        })?;
    }
    Ok(way)
}
