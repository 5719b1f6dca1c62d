//! A session that is gone through without a word of it, for the commands that were kept of its released turns.

ghost use Rattle.{sim_client.specs.StageWords.AreCleared, sim_lists.specs.StepLists.IsStepList, sim_plain_session.specs.Sessions.{events_after, opened}};
ghost use Rattle.{sim_server.specs.Standing.server_of, sim_session.specs.Going.{ComeBackBuilt, Keeps, MayBegin, MayPass, Passes, rigs_of, setup_in}};
ghost use Rattle.sim_session.specs.{Going.systems_in, Laws.{AllBuiltAtMost, builds_of, loads_in, session_of}, Recording.released_turns as turns_released};
ghost use Rattle.sim_system.specs.Meanings.{HaveKinds};
ghost use Rattle.std.specs.{List.range_with_len, Prelude.{All, drop, IfOk, length, map, take, vec_capacity, ◌≡◌, ◌≤◌}};

use crate::session::Session;
use sim_base::{Global, Items, OutOfMemory, PlayerCommand, Setup};
use sim_lists::StepList;
use sim_orders::OrderTable;
use sim_replay::{Orders, Turns};
use sim_server::Server;
use sim_system::{Rig, System};

// Makes each step of the list.
fn make_steps(session: &mut Session<'_>, list: &StepList) -> Result<(), OutOfMemory>
    requires { MayPass ⟦<dyn System as System>⟧ list.now.clients list.now session.old }
    ensures { Passes ⟦<dyn System as System>⟧ list.now (loads_in (events_after (setup_in session.old) (opened (setup_in session.old) list.now.clients)
        list.now.steps)) result session.old session.new }
{
    for step in list.steps.as_slice() {
        session.step(step)?;
    }
    Ok(())
}

// Begins the session, makes its steps, and gives the commands of its released turns.
fn record(alloc: Global, session: &mut Session<'_>, list: &StepList) -> Result<Turns, OutOfMemory>
    requires { MayPass ⟦<dyn System as System>⟧ 0 list.now session.old }
    ensures turns { IfOk result (λ turns. turns ≡ turns_released (session_of (setup_in session.old) list.now)) }
    ensures built { AllBuiltAtMost (builds_of (setup_in session.old) list.now) (setup_in session.old).players (systems_in session.old ⟦<dyn System as System>⟧)
        (systems_in session.new ⟦<dyn System as System>⟧) }
    ensures keeps { Keeps ⟦<dyn System as System>⟧ session.old session.new }
{
    session.start(list.clients)?;
    make_steps(session, list)?;
    turns_of(alloc, session.server())
}

// The commands that a server keeps of its released turns.
fn turns_of(alloc: Global, server: &Server) -> Result<Turns, OutOfMemory>
    ensures { IfOk result (λ turns. turns ≡ map (server_of server.now).kept (range_with_len 1 (server_of server.now).released)) }
{
    let mut turns = Turns::new(alloc);
    for before in 0..server.released() {
        turns.push(copied(alloc, server.kept(before + 1))?)?;
    }
    Ok(turns)
}

fn copied(alloc: Global, commands: &[PlayerCommand]) -> Result<Orders, OutOfMemory>
    ensures { IfOk result (λ copied. copied ≡ commands.now) }
{
    let mut copied = Items::new(alloc);
    for command in commands {
        copied.push(command.copy()?)?;
    }
    Ok(copied)
}

// Has the first so many rigs forget all.
fn clear(rigs: &mut Vec<Rig>, count: u8)
    requires { count ≤ length rigs.old.items }
    ensures cleared { All AreCleared (take count (rigs_of rigs.new.items ⟦<dyn System as System>⟧)) }
    ensures built { AllBuiltAtMost (λ c. 0) count (rigs_of rigs.old.items ⟦<dyn System as System>⟧) (rigs_of rigs.new.items ⟦<dyn System as System>⟧) }
    ensures kinds { All HaveKinds (rigs_of rigs.old.items ⟦<dyn System as System>⟧) → All HaveKinds (rigs_of rigs.new.items ⟦<dyn System as System>⟧) }
    ensures spare { drop count rigs.new.items ≡ drop count rigs.old.items }
    ensures count { length rigs.new.items ≡ length rigs.old.items }
    ensures room { vec_capacity rigs.new ≡ vec_capacity rigs.old }
{
    for i in 0..count {
        rigs[i as usize].clear();
    }
}

/// The commands of the turns that are released after a session over a list of steps, in which client c has the c-th of eight
/// cleared rigs. All rigs come back cleared and in their order, whether there was memory or not: those of a client were built
/// at most once for its start and once for each state that it loads in these steps.
pub fn released_turns(
    alloc: Global,
    setup: &Setup,
    orders: &OrderTable,
    list: &StepList,
    rigs: Vec<Rig>,
) -> (Result<Turns, OutOfMemory>, Vec<Rig>)
    requires begins { MayBegin ⟦<dyn System as System>⟧ setup.now rigs.items }
    requires list { IsStepList setup.now.players list.now }
    ensures turns { IfOk result.0 (λ turns. turns ≡ turns_released (session_of setup.now list.now)) }
    ensures cleared { All AreCleared (rigs_of result.1.items ⟦<dyn System as System>⟧) }
    ensures rigs { ComeBackBuilt ⟦<dyn System as System>⟧ setup.now list.now rigs result.1 }
{
    match Session::new(alloc, setup, orders, rigs) {
        Ok(mut session) => {
            let turns = record(alloc, &mut session, list);
            let mut rigs = session.finish();
            clear(&mut rigs, setup.players);
            (turns, rigs)
        }
        Err(rigs) => (Err(OutOfMemory), rigs),
    }
}
