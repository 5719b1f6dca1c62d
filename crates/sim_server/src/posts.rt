//! What the server says, as lists of posts by ascending receiver.

ghost use Rattle.std.specs.Prelude.{[], IfOk, map, OnOk, ◌++◌, ◌∷◌, ◌≡◌};
ghost use Rattle.sim_server.specs.{Common.Command, Common.posted_to, Standing.asked_one};

use sim_base::{Global, Items, OutOfMemory, PlayerCommand};
use sim_plain::PostOf;
use sim_wire::{Bytes, Down};

/// A message of the server, and the client who gets it.
pub type Post = PostOf<Bytes>;

/// What the server says at once, by ascending receiver.
pub type Posts = Items<Post>;

/// One message.
pub fn one(alloc: Global, to: u8, down: Down) -> Result<Posts, OutOfMemory>
    ensures { IfOk result (λ posts. posts ≡ posted_to to (down ∷ [])) }
{
    let mut posts = Items::new(alloc);
    posts.push(Post { to, down })?;
    Ok(posts)
}

/// The same message in memory of its own.
pub fn copied(down: &Down) -> Result<Down, OutOfMemory>
    ensures { IfOk result (λ copy. copy ≡ down.now) }
{
    match down {
        Down::Ask { client } => Ok(Down::Ask { client: *client }),
        Down::State { done, bytes } => Ok(Down::State {
            done: *done,
            bytes: bytes.copy()?,
        }),
        Down::Command { turn, order } => Ok(Down::Command {
            turn: *turn,
            order: order.copy()?,
        }),
        Down::Release { turn } => Ok(Down::Release { turn: *turn }),
        Down::Notice { turn, client } => Ok(Down::Notice {
            turn: *turn,
            client: *client,
        }),
        Down::Refused { code } => Ok(Down::Refused { code: *code }),
    }
}

/// The donor is asked for a client that wants to join, or the client is refused.
pub fn tell_ask(alloc: Global, donor: Option<u8>, client: u8) -> Result<Posts, OutOfMemory>
    ensures { IfOk result (λ posts. posts ≡ asked_one donor client) }
{
    match donor {
        Some(to) => one(alloc, to, Down::Ask { client }),
        None => one(alloc, client, Down::Refused { code: 4 }),
    }
}

/// Adds the commands of a turn, all to one client.
pub fn push_orders(
    posts: &mut Posts,
    to: u8,
    turn: u32,
    orders: &[PlayerCommand],
) -> Result<(), OutOfMemory>
    ensures { OnOk result (posts.new ≡ posts.old ++ posted_to to (map (Command turn) orders.now)) }
{
    for order in orders {
        posts.push(Post {
            to,
            down: Down::Command {
                turn,
                order: order.copy()?,
            },
        })?;
    }
    Ok(())
}
