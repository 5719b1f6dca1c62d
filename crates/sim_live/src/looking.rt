//! What is answered to a look. A client that is not on has no state, and is told as it would be in the end.

ghost use Rattle.{sim_base.specs.Limits.IsValid, sim_client.specs.ClientWords.{life, state_of}};
ghost use Rattle.{sim_live.specs.{Looks.IsLook, Shown.{bytes_line, look_text, shown_as, told_as}}, sim_plain_session.specs.Sessions.Session as PlainSession};
ghost use Rattle.sim_session.specs.{Going.{IsSession, seen_in, setup_in}, Seen.{end_seen, IsMember}, Standing.StandsFor};
ghost use Rattle.std.specs.Prelude.{OnOk, string_bytes, ◌++◌, ◌≡◌};

use crate::look::Look;
use sim_base::{OutOfMemory, Setup, State};
use sim_bytes::push_hex;
use sim_client::Client;
use sim_codec::spell;
use sim_report::push_show;
use sim_session::{Session, end_of, push_end, push_pipes, push_server};
use sim_system::System;

/// Appends what is seen of a session. Of the text nothing is said after an error, here and below.
pub fn push_look(session: &Session<'_>, look: Look, out: &mut String) -> Result<(), OutOfMemory>
    requires session { IsSession session.now ⟦<dyn System as System>⟧ }
    requires look { IsLook (setup_in session.now).players look }
    ensures { OnOk result ((s : PlainSession) → StandsFor (setup_in session.now) (seen_in session.now) s
        → string_bytes out.new ≡ string_bytes out.old ++ look_text (setup_in session.now) s look) }
{
    let setup = session.setup();
    match look {
        Look::Digest { client } => push_end(client, &end_of(session.client(client)), out),
        Look::Show { client } => push_shown(client, session.client(client), setup, out),
        Look::State { client } => push_told(client, session.client(client), setup, out),
        Look::Pipes => push_pipes(session.exchange(), setup.players, out),
        Look::Kept => push_server(session.server(), setup.turns, out),
    }
}

// Appends the state of a client, row by row.
fn push_shown(
    number: u8,
    client: &Client<'_>,
    setup: &Setup,
    out: &mut String,
) -> Result<(), OutOfMemory>
    requires { IsMember setup.now ⟦<dyn System as System>⟧ client.now }
    ensures { OnOk result (string_bytes out.new ≡ string_bytes out.old ++ shown_as setup.now number (end_seen setup.now (life client.now))
        (state_of (life client.now))) }
{
    match client.state() {
        Some(state) => push_show(setup, state, out),
        None => push_end(number, &end_of(client), out),
    }
}

// Appends the bytes of the state of a client.
fn push_told(
    number: u8,
    client: &Client<'_>,
    setup: &Setup,
    out: &mut String,
) -> Result<(), OutOfMemory>
    requires { IsMember setup.now ⟦<dyn System as System>⟧ client.now }
    ensures { OnOk result (string_bytes out.new ≡ string_bytes out.old ++ told_as setup.now number (end_seen setup.now (life client.now))
        (state_of (life client.now))) }
{
    match client.state() {
        Some(state) => push_bytes(number, setup, state, out),
        None => push_end(number, &end_of(client), out),
    }
}

fn push_bytes(number: u8, setup: &Setup, state: &State, out: &mut String) -> Result<(), OutOfMemory>
    requires { IsValid setup.now state.now }
    ensures { OnOk result (string_bytes out.new ≡ string_bytes out.old ++ bytes_line setup.now number state.now) }
{
    let bytes = spell(*out.allocator(), setup, state)?;
    write!(out, "state {number} ")?;
    push_hex(out, &bytes)?;
    out.push_str("\n")?;
    Ok(())
}
