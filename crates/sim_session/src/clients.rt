//! What is seen of a client in the end.

ghost use Rattle.{sim_client.specs.ClientWords.{IsSound, life, setup_in, state_of}, sim_session.specs.{Laws.pair_apart, Seen.end_seen}};
ghost use Rattle.std.specs.Prelude.{OnOk, string_bytes, ◌++◌, ◌≡◌};

use crate::apart::push_difference;
use crate::ending::End;
use sim_base::OutOfMemory;
use sim_client::Client;
use sim_system::System;

/// What a client has come to.
pub fn end_of(client: &Client<'_>) -> End
    requires { IsSound client.now ⟦<dyn System as System>⟧ }
    ensures { result ≡ end_seen (setup_in client.now) (life client.now) }
{
    match (client.turn(), client.digest()) {
        (Some(turn), Some(digest)) => End::On { turn, digest },
        _ if client.joining() => End::Joining,
        _ => End::Off,
    }
}

/// Appends the line of two clients, if the first has the lesser number, both are on at one turn, and their states differ.
pub fn push_pair(
    clients: (u8, u8),
    left: &Client<'_>,
    right: &Client<'_>,
    out: &mut String,
) -> Result<(), OutOfMemory>
    requires left { IsSound left.now ⟦<dyn System as System>⟧ }
    requires right { IsSound right.now ⟦<dyn System as System>⟧ }
    ensures { OnOk result (string_bytes out.new ≡ string_bytes out.old ++ pair_apart clients.0 clients.1 (state_of (life left.now))
        (state_of (life right.now))) }
{
    if clients.1 <= clients.0 {
        return Ok(());
    }
    match (left.state(), right.state()) {
        (Some(one), Some(other)) => push_difference(clients, one, other, out),
        _ => Ok(()),
    }
}
