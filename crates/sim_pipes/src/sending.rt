//! Messages framed into the pipes of all clients. The pipes stand in a list by the number of their client, the first of
//! which is nobody's.

ghost use Rattle.sim_pipes.specs.{Common.{DownOf, IsDownFrame, IsSmallDown, IsSmallUp, IsUpFrame, UpOf}, Pipes.{AreFrames, pipe_in}, Posts.told_to};
ghost use Rattle.std.specs.Prelude.{All, IsOk, length, List, OnOk, ℕ, [], ◌++◌, ◌<◌, ◌∷◌, ◌≡◌};

use crate::pipe::Pipe;
use sim_base::{Global, Items, OutOfMemory};
use sim_server::Posts;
use sim_wire::{Down, Up, frame_down, frame_up};

// Sends one message up a pipe.
fn send_up(alloc: Global, pipe: &mut Pipe, up: &Up) -> Result<(), OutOfMemory>
    requires { IsSmallUp up.now }
    ensures { OnOk result ((before : List (UpOf (List ℕ))) → AreFrames IsUpFrame pipe.old before → AreFrames IsUpFrame pipe.new (before ++ up.now ∷ [])) }
{
    let frame = frame_up(alloc, up)?;
    pipe.push(Items::from_items(frame))
}

/// Sends messages up a pipe, in order.
pub fn send_all_up(alloc: Global, pipe: &mut Pipe, ups: &[Up]) -> Result<(), OutOfMemory>
    requires { All IsSmallUp ups.now }
    ensures frames { OnOk result ((before : List (UpOf (List ℕ))) → AreFrames IsUpFrame pipe.old before → AreFrames IsUpFrame pipe.new (before ++ ups.now)) }
    ensures none { ups.now ≡ [] → IsOk result }
{
    for up in ups {
        send_up(alloc, pipe, up)?;
    }
    Ok(())
}

// Sends one message down a pipe.
fn send_down(alloc: Global, pipe: &mut Pipe, down: &Down) -> Result<(), OutOfMemory>
    requires { IsSmallDown down.now }
    ensures { OnOk result ((before : List (DownOf (List ℕ))) → AreFrames IsDownFrame pipe.old before
        → AreFrames IsDownFrame pipe.new (before ++ down.now ∷ [])) }
{
    let frame = frame_down(alloc, down)?;
    pipe.push(Items::from_items(frame))
}

// Sends one message down the pipe of a client.
fn send_down_to(
    alloc: Global,
    pipes: &mut Vec<Pipe>,
    to: u8,
    down: &Down,
) -> Result<(), OutOfMemory>
    requires client { to < length pipes.old.items }
    requires small { IsSmallDown down.now }
    ensures one { OnOk result ((before : List (DownOf (List ℕ))) → AreFrames IsDownFrame (pipe_in pipes.old.items to) before
        → AreFrames IsDownFrame (pipe_in pipes.new.items to) (before ++ down.now ∷ [])) }
    ensures others { OnOk result ((c : ℕ) → (c ≡ to → ⊥) → pipe_in pipes.new.items c ≡ pipe_in pipes.old.items c) }
    ensures count { length pipes.new.items ≡ length pipes.old.items }
{
    send_down(alloc, &mut pipes[to as usize], down)
}

/// Sends each post down the pipe of its client.
pub fn deliver(alloc: Global, pipes: &mut Vec<Pipe>, posts: &Posts) -> Result<(), OutOfMemory>
    requires clients { All (λ post. post.to < length pipes.old.items) posts.now }
    requires small { All (λ post. IsSmallDown post.down) posts.now }
    ensures frames { OnOk result ((c : ℕ) (before : List (DownOf (List ℕ))) → AreFrames IsDownFrame (pipe_in pipes.old.items c) before
        → AreFrames IsDownFrame (pipe_in pipes.new.items c) (before ++ told_to c posts.now)) }
    ensures none { posts.now ≡ [] → IsOk result }
    ensures count { length pipes.new.items ≡ length pipes.old.items }
{
    for post in posts.as_slice() {
        send_down_to(alloc, pipes, post.to, &post.down)?;
    }
    Ok(())
}
