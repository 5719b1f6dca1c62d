//! What an arrival costs the server: 100,000 of eight clients, who give commands, are done and report in each turn, and
//! 20 joinings with states of 1.7 MB.

ghost use Rattle.std.specs.Prelude.{◌≡◌};

use sim_base::{Command, Global, Items, OutOfMemory};
use sim_server::Server;
use sim_wire::Up;
use std::io;
use std::time::Instant;

const CLIENTS: u8 = 8;

// Each client says five things in a turn.
const TURNS: u32 = 2_500;

// So many turns lie between two joinings.
const JOINING: u32 = 125;

const STATE: usize = 1_700_000;

/// What arrives from a client; None is the end of its connection.
#[derive(Drop)]
struct Arrival {
    from: u8,
    said: Option<Up>,
}

/// Prints the figures.
pub fn measure(rt: &HostRuntime) -> io::Result<()> {
    match Server::new(rt.alloc(), CLIENTS, CLIENTS, 1, 65_535) {
        Ok(server) => measure_server(rt, server),
        Err(_) => Ok(()),
    }
}

// Prints what an arrival took, and what a joining took.
fn measure_server(rt: &HostRuntime, server: Server) -> io::Result<()>
    requires { server.rules.clients ≡ 8 }
{
    let mut server = server;
    let mut plain = 0u64;
    let mut fastest = u64::MAX;
    let mut joinings = 0u64;
    for turn in 2..TURNS + 2 {
        let spent = time_of(rt, &mut server, round(rt.alloc(), turn))?;
        plain = plain.saturating_add(spent);
        fastest = fastest.min(spent);
        if turn % JOINING == 0 {
            let spent = time_of(rt, &mut server, joining(rt.alloc(), turn))?;
            joinings = joinings.saturating_add(spent);
        }
    }
    println!(rt;
        "100000 arrivals: {} ns each, and {} in the fastest turn",
        plain / 100_000,
        fastest / 40
    )?;
    println!(rt;
        "20 joinings with states of 1.7 MB: {} us each",
        joinings / 20_000
    )
}

// The nanoseconds in which these are heard.
fn time_of(
    rt: &HostRuntime,
    server: &mut Server,
    arrivals: Result<Vec<Arrival>, OutOfMemory>,
) -> io::Result<u64>
    requires { server.old.rules.clients ≡ 8 }
    ensures { server.new.rules ≡ server.old.rules }
{
    let Ok(arrivals) = arrivals else {
        return Ok(0);
    };
    let begin = Instant::now(rt)?;
    for arrival in arrivals {
        hear(server, arrival);
    }
    Ok(u64::try_from(begin.elapsed(rt)?.as_nanos()).unwrap_or(0))
}

fn hear(server: &mut Server, arrival: Arrival)
    requires { server.old.rules.clients ≡ 8 }
    ensures { server.new.rules ≡ server.old.rules }
{
    let from = arrival.from;
    if from == 0 || CLIENTS < from {
        return;
    }
    let _ = match arrival.said {
        Some(up) => server.hear(from, up),
        None => server.cut(from),
    };
}

// What the clients say in a turn: three commands each and that they are done, and then a report each.
fn round(alloc: Global, turn: u32) -> Result<Vec<Arrival>, OutOfMemory> {
    let mut arrivals = Vec::new(alloc);
    for i in 0..CLIENTS {
        for _ in 0..3 {
            arrivals.push(said(i, order(alloc, turn)?))?;
        }
        arrivals.push(said(i, Up::Done { turn }))?;
    }
    for i in 0..CLIENTS {
        let digest = [7; 16];
        arrivals.push(said(i, Up::Report { turn, digest }))?;
    }
    Ok(arrivals)
}

// The last client is cut off and loads a state of the first one.
fn joining(alloc: Global, turn: u32) -> Result<Vec<Arrival>, OutOfMemory> {
    let bytes = Items::from_items(vec![in alloc; 0u8; STATE]?);
    let mut arrivals = Vec::new(alloc);
    arrivals.push(Arrival {
        from: CLIENTS,
        said: None,
    })?;
    arrivals.push(said(CLIENTS - 1, Up::Join))?;
    arrivals.push(said(
        0,
        Up::State {
            client: CLIENTS,
            turn,
            bytes,
        },
    ))?;
    Ok(arrivals)
}

// Client i + 1 says something.
fn said(i: u8, up: Up) -> Arrival {
    Arrival {
        from: i.saturating_add(1),
        said: Some(up),
    }
}

fn order(alloc: Global, turn: u32) -> Result<Up, OutOfMemory> {
    let ids = Items::from_items(vec![in alloc; 2u32; 8]?);
    let command = Command::Stop { ids };
    Ok(Up::Command { turn, command })
}
