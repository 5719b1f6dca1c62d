//! What is printed of the notices among posts.

ghost use Rattle.std.specs.Prelude.{◌≡◌, [], ◌∷◌, ◌++◌, OnOk, IsOk, filter_map};
ghost use Rattle.sim_pipes.specs.{Common.notice_in, Posts.notice_events, Posts.told_to};

use sim_base::{Event, Events, OutOfMemory};
use sim_server::{Post, Posts};
use sim_wire::Down;

// The line of a notice, if a post to this client is one.
fn push_notice(events: &mut Events, client: u8, post: &Post) -> Result<(), OutOfMemory>
    ensures { OnOk result (events.new ≡ events.old ++ notice_events (filter_map notice_in (told_to client (post.now ∷ [])))) }
{
    if post.to != client {
        return Ok(());
    }
    match &post.down {
        Down::Notice { turn, client } => events.push(Event::Notice {
            turn: *turn,
            client: *client,
        }),
        Down::Ask { .. } => Ok(()),
        Down::State { .. } => Ok(()),
        Down::Command { .. } => Ok(()),
        Down::Release { .. } => Ok(()),
        Down::Refused { .. } => Ok(()),
    }
}

/// Appends the line of each notice among the posts to one client.
pub fn push_notices(events: &mut Events, client: u8, posts: &Posts) -> Result<(), OutOfMemory>
    ensures lines { OnOk result (events.new ≡ events.old ++ notice_events (filter_map notice_in (told_to client posts.now))) }
    ensures none { posts.now ≡ [] → IsOk result }
{
    for post in posts.as_slice() {
        push_notice(events, client, post)?;
    }
    Ok(())
}
