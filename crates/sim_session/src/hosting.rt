//! A session that is begun, goes through its steps and is told.

ghost use Rattle.{sim_client.specs.ClientWords.{digest_of, IsSound, life, setup_in as client_setup_in}, sim_lists.specs.StepLists.IsStepList};
ghost use Rattle.sim_plain_session.specs.Sessions.{events_after, opened, start_events};
ghost use Rattle.sim_session.specs.Going.{ComeBackBuilt, HasOpened, MayBegin, MayPass, Passes, rigs_of, setup_in};
ghost use Rattle.sim_session.specs.{Laws.{AllStand, builds_of, lines_of, loads_in, session_of, session_text as text_of_session}, Starts.start_lines};
ghost use Rattle.std.specs.Prelude.{IfOk, OnOk, string_bytes, ◌++◌, ◌≡◌};

use crate::closing::push_ending;
use crate::session::Session;
use crate::told::push_events;
use sim_base::{Event, Global, OutOfMemory, Setup};
use sim_client::Client;
use sim_lists::StepList;
use sim_orders::OrderTable;
use sim_report::push_event;
use sim_system::{Rig, System};

// Appends the line of a client that is on at the beginning.
fn push_start(client: &Client<'_>, number: u8, text: &mut String) -> Result<(), OutOfMemory>
    requires { IsSound client.now ⟦<dyn System as System>⟧ }
    ensures { OnOk result (string_bytes text.new ≡ string_bytes text.old ++ start_lines number (digest_of (client_setup_in client.now) (life client.now))) }
{
    match client.digest() {
        Some(digest) => push_event(
            &Event::Start {
                client: number,
                digest,
            },
            text,
        ),
        None => Ok(()),
    }
}

/// Appends the lines of the clients that are on at the beginning.
pub fn push_starts(session: &Session<'_>, clients: u8, text: &mut String) -> Result<(), OutOfMemory>
    requires { HasOpened ⟦<dyn System as System>⟧ clients clients session.now }
    ensures { OnOk result (string_bytes text.new ≡ string_bytes text.old ++ lines_of (start_events (setup_in session.now) clients)) }
{
    for before in 0..clients {
        let number = before + 1;
        push_start(session.client(number), number, text)?;
    }
    Ok(())
}

// Makes each step of the list, and appends the lines of its events behind those of the beginning.
fn push_steps(
    session: &mut Session<'_>,
    list: &StepList,
    text: &mut String,
) -> Result<(), OutOfMemory>
    requires { MayPass ⟦<dyn System as System>⟧ list.now.clients list.now session.old }
    ensures text { OnOk result (string_bytes text.new ≡ string_bytes text.old ++
        lines_of (events_after (setup_in session.old) (opened (setup_in session.old) list.now.clients) list.now.steps)) }
    ensures passes { Passes ⟦<dyn System as System>⟧ list.now (loads_in (events_after (setup_in session.old) (opened (setup_in session.old) list.now.clients)
        list.now.steps)) result session.old session.new }
{
    for step in list.steps.as_slice() {
        let events = session.step(step)?;
        push_events(&events, text)?;
    }
    Ok(())
}

// Begins the session, makes its steps, and appends all that is printed of it.
fn push_session(
    session: &mut Session<'_>,
    list: &StepList,
    text: &mut String,
) -> Result<(), OutOfMemory>
    requires { MayPass ⟦<dyn System as System>⟧ 0 list.now session.old }
    ensures text { OnOk result (string_bytes text.new ≡ string_bytes text.old ++ text_of_session (setup_in session.old) list.now) }
    ensures passes { Passes ⟦<dyn System as System>⟧ list.now (builds_of (setup_in session.old) list.now) result session.old session.new }
{
    session.start(list.clients)?;
    push_starts(session, list.clients, text)?;
    push_steps(session, list, text)?;
    push_ending(session.setup(), session.clients(), session.exchange(), text)
}

/// What is printed of a session over a list of steps, in which client c has the c-th of eight cleared rigs. All rigs come back
/// in their order, whether there was memory or not: those of a client were built at most once for its start and once for each
/// state that it loads in these steps, and those without a client are as they came. Where there was memory, the systems of
/// each client that is on in the end stand for its state, and those of each other one have forgotten all.
pub fn session_text(
    alloc: Global,
    setup: &Setup,
    orders: &OrderTable,
    list: &StepList,
    rigs: Vec<Rig>,
) -> (Result<String, OutOfMemory>, Vec<Rig>)
    requires begins { MayBegin ⟦<dyn System as System>⟧ setup.now rigs.items }
    requires list { IsStepList setup.now.players list.now }
    ensures text { IfOk result.0 (λ text. string_bytes text ≡ text_of_session setup.now list.now) }
    ensures stand { OnOk result.0 (AllStand setup.now (session_of setup.now list.now) (rigs_of result.1.items ⟦<dyn System as System>⟧)) }
    ensures rigs { ComeBackBuilt ⟦<dyn System as System>⟧ setup.now list.now rigs result.1 }
{
    match Session::new(alloc, setup, orders, rigs) {
        Ok(mut session) => {
            let mut text = String::new(alloc);
            let told = push_session(&mut session, list, &mut text);
            let rigs = session.finish();
            match told {
                Ok(()) => (Ok(text), rigs),
                Err(error) => (Err(error), rigs),
            }
        }
        Err(rigs) => (Err(OutOfMemory), rigs),
    }
}
