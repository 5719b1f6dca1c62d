//! What waits for the clients of a server: the posts of each arrival, as they were made, until each client has taken its own. Frames are
//! made as they are taken.

ghost use Rattle.sim_held.specs.Servers.{AreSmall, frames_for, has_some as has_some_of, waiting, WaitsForClients};
ghost use Rattle.{sim_pipes.specs.Posts.told_to, sim_server.specs.Standing.View, sim_wire.specs.Reading.{down_frame, IsSmallDown}, std.specs.List.flat_map};
ghost use Rattle.std.specs.Prelude.{All, filter, IfOk, if◌then◌else◌, IsOk, map, not, OnOk, vec_capacity, vec_len, ℕ, [], ◌++◌, ◌<◌, ◌==◌, ◌∷◌, ◌≡◌, ◌≤◌};

use sim_base::{Global, Items, OutOfMemory};
use sim_server::{Post, Posts};
use sim_wire::{Down, frame_down};

fn push_frame(alloc: Global, out: &mut Vec<u8>, down: &Down) -> Result<(), OutOfMemory>
    requires { IsSmallDown down.now }
    ensures { OnOk result (out.new.items ≡ out.old.items ++ down_frame down.now) }
{
    let frame = frame_down(alloc, down)?;
    out.extend_from_slice(&frame)?;
    Ok(())
}

// Appends the frame of a post, if it is to this client.
#[tactic(auto, using(crate::proofs::Waits::flat_map_one))]
fn push_post(alloc: Global, out: &mut Vec<u8>, to: u8, post: &Post) -> Result<(), OutOfMemory>
    requires { IsSmallDown post.now.down }
    ensures frames { OnOk result (out.new.items ≡ out.old.items ++ flat_map down_frame (told_to to (post.now ∷ []))) }
    ensures none { told_to to (post.now ∷ []) ≡ [] → IsOk result }
{
    if post.to == to {
        push_frame(alloc, out, &post.down)?;
    }
    Ok(())
}

// Appends the frames of the posts to a client.
fn push_posts(alloc: Global, out: &mut Vec<u8>, to: u8, posts: &[Post]) -> Result<(), OutOfMemory>
    requires { All (λ post. IsSmallDown post.down) posts.now }
    ensures frames { OnOk result (out.new.items ≡ out.old.items ++ flat_map down_frame (told_to to posts.now)) }
    ensures none { told_to to posts.now ≡ [] → IsOk result }
{
    for post in posts {
        push_post(alloc, out, to, post)?;
    }
    Ok(())
}

/// The frames of all that waits for a client, one behind another.
pub fn frames_to(alloc: Global, said: &[Posts], to: u8) -> Result<Vec<u8>, OutOfMemory>
    requires { AreSmall said.now }
    ensures frames { IfOk result (λ bytes. bytes.items ≡ frames_for said.now to) }
    ensures none { waiting said.now to ≡ [] → IsOk result }
{
    let mut out = Vec::new(alloc);
    for posts in said {
        push_posts(alloc, &mut out, to, posts.as_slice())?;
    }
    Ok(out)
}

// The posts to all other clients.
fn others_of(posts: Posts, to: u8) -> Posts
    ensures { result ≡ filter (λ post. not (post.to == to)) posts }
{
    let mut items = posts.into_items();
    items.retain(|post| post.to != to);
    Items::from_items(items)
}

// Leaves the posts to all other clients in each list.
fn keep_others(alloc: Global, said: &mut Vec<Posts>, to: u8)
    ensures said { said.new.items ≡ map (filter (λ post. not (post.to == to))) said.old.items }
    ensures room { (vec_len said.new ≡ vec_len said.old) × (vec_capacity said.new ≡ vec_capacity said.old) }
{
    for posts in said.iter_mut() {
        let old = std::mem::replace(posts, Items::new(alloc));
        *posts = others_of(old, to);
    }
}

// Whether there is a post in a list.
fn has_some(posts: &Posts) -> bool
    ensures { result ≡ has_some_of posts.now }
{
    match posts.as_slice() {
        [] => false,
        [_, ..] => true,
    }
}

// Drops the lists that have no post.
fn drop_empty(said: &mut Vec<Posts>)
    ensures said { said.new.items ≡ filter has_some_of said.old.items }
    ensures room { (vec_len said.new ≤ vec_len said.old) × (vec_capacity said.new ≡ vec_capacity said.old) }
{
    said.retain(|posts| has_some(posts));
}

/// Drops all that waits for a client.
pub fn leave(alloc: Global, said: &mut Vec<Posts>, to: u8)
    ensures said { (d : ℕ) → waiting said.new.items d ≡ (if d == to then [] else waiting said.old.items d) }
    ensures small { AreSmall said.old.items → AreSmall said.new.items }
    ensures own { (v : View) → WaitsForClients v said.old.items → WaitsForClients v said.new.items }
    ensures room { (vec_len said.new ≤ vec_len said.old) × (vec_capacity said.new ≡ vec_capacity said.old) }
{
    keep_others(alloc, said, to);
    drop_empty(said);
}

/// Puts the posts of an arrival behind all that waits. There has to be room for them.
pub fn keep(said: &mut Vec<Posts>, posts: Posts)
    requires { vec_len said.old < vec_capacity said.old }
    ensures said { (d : ℕ) → waiting said.new.items d ≡ waiting said.old.items d ++ told_to d posts }
    ensures small { AreSmall said.old.items → All (λ post. IsSmallDown post.down) posts → AreSmall said.new.items }
{
    if !has_some(&posts) {
        return;
    }
    let Ok(()) = said.push(posts) else {
        unreachable!();
    };
}
