//! What is answered to a line: a line of each message that the server says at the arrival, as the frame in which it goes.

ghost use Rattle.sim_live.specs.{Answering.{Counts, Says, StaysSmall}, Arrived.{IsFromOne, plain_of}, Relays.{answer as answer_of, frame_line, next}};
ghost use Rattle.{sim_plain.specs.Messages.Arrival as PlainArrival, sim_server.specs.Standing.{IsClient, IsSmallServer, server_of, StandsFor}};
ghost use Rattle.sim_wire.specs.{Memory.raw, Reading.IsSmallDown};
ghost use Rattle.std.specs.Prelude.{All, flat_map, IfOk, length, List, OnOk, string_bytes, ℕ, ◌++◌, ◌+◌, ◌<◌, ◌^◌, ◌≡◌, ◌≤◌};

use crate::arriving::{Arriving, arriving_of};
use sim_base::{Global, OutOfMemory};
use sim_bytes::push_hex;
use sim_plain::PostOf;
use sim_server::{Posts, Server};
use sim_talk::{push_ok, push_refused};
use sim_wire::{Bytes, frame_down};

/// What is answered to a line after so many arrivals, and how many there are behind it.
pub fn reply(
    alloc: Global,
    server: &mut Server,
    clients: u8,
    heard: u64,
    line: &[u8],
) -> Result<(String, u64), OutOfMemory>
    requires clients { clients ≡ server.old.rules.clients }
    requires small { IsSmallServer (server_of server.old) }
    requires count { heard + 1 < 2 ^ 64 }
    ensures text { IfOk result (λ told. (active : ℕ) (h : List (PlainArrival (List ℕ))) → heard ≡ length h → StandsFor server.old active h
        → string_bytes told.0 ≡ answer_of server.old.rules active h line.now) }
    ensures count { IfOk result (λ told. Counts heard (λ h. next server.old.rules h line.now) told.1) }
    ensures stands { OnOk result ((active : ℕ) (h : List (PlainArrival (List ℕ))) → StandsFor server.old active h
        → StandsFor server.new active (next server.old.rules h line.now)) }
    ensures stays { StaysSmall server.old server.new }
{
    let mut text = String::new(alloc);
    let Some(arriving) = arriving_of(alloc, clients, line)? else {
        push_refused(heard + 1, &mut text)?;
        return Ok((text, heard));
    };
    let posts = arrive(server, arriving)?;
    push_frames(alloc, &posts, &mut text)?;
    push_ok(heard + 1, &mut text)?;
    Ok((text, heard + 1))
}

// What the server says at an arrival.
fn arrive(server: &mut Server, arriving: Arriving) -> Result<Posts, OutOfMemory>
    requires from { IsFromOne server.old.rules.clients arriving }
    requires small { IsSmallServer (server_of server.old) }
    ensures { Says (plain_of arriving) result server.old server.new }
{
    match arriving {
        Arriving::Frame { from, bytes } => hear(server, from, bytes.as_slice()),
        Arriving::Cut { from } => server.cut(from),
    }
}

// The same at bytes of a client.
fn hear(server: &mut Server, from: u8, bytes: &[u8]) -> Result<Posts, OutOfMemory>
    requires from { IsClient server.old from }
    requires small { IsSmallServer (server_of server.old) }
    ensures { Says (raw from bytes.now) result server.old server.new }
{
    server.hear_frame(from, bytes)
}

fn push_frames(alloc: Global, posts: &Posts, out: &mut String) -> Result<(), OutOfMemory>
    requires { All (λ post. IsSmallDown post.down) posts.now }
    ensures { OnOk result (string_bytes out.new ≡ string_bytes out.old ++ flat_map frame_line posts.now) }
{
    for post in posts.as_slice() {
        push_frame(alloc, post, out)?;
    }
    Ok(())
}

fn push_frame(alloc: Global, post: &PostOf<Bytes>, out: &mut String) -> Result<(), OutOfMemory>
    requires { IsSmallDown post.now.down }
    ensures { OnOk result (string_bytes out.new ≡ string_bytes out.old ++ frame_line post.now) }
{
    let frame = frame_down(alloc, &post.down)?;
    let to = post.to;
    write!(out, "post {to} ")?;
    push_hex(out, &frame)?;
    out.push_str("\n")?;
    Ok(())
}
