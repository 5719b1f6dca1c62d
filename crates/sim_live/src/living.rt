//! The whole talk: the session begins, each line is answered before the next one is heard, and at the end of the input it is told what
//! the session has come to. However it ends, all that was told is written then.

ghost use Rattle.{sim_base.specs.declared.step.Step.Step as AnyStep, sim_live.specs.Live.{AnswersAll, first_text, last_text, Lives}};
ghost use Rattle.{sim_plain_session.specs.Sessions.session as session_over, sim_session.specs.Going.{ComeBack, GoesOn, HasOpened, IsSession, Keeps, MayBegin}};
ghost use Rattle.{sim_session.specs.{Going.{seen_in, setup_in}, Standing.StandsFor}, sim_talk.specs.Dialogues.{Causes, TellsText}};
ghost use Rattle.std.specs.Prelude.{List, [], ◌≡◌, ◌≤◌};

use crate::answering::answer;
use sim_base::{Global, OutOfMemory, Setup};
use sim_orders::OrderTable;
use sim_session::{Session, push_ending, push_starts};
use sim_system::{Rig, System};
use sim_talk::{Talk, TalkFault, settled};

/// Talks over a session of the match, of whose clients so many are on in the beginning. Client c has the c-th of eight cleared rigs. All
/// rigs come back in their order, however the talk ended.
pub fn live<T: Talk>(
    alloc: Global,
    setup: &Setup,
    orders: &OrderTable,
    clients: u8,
    talk: &mut T,
    rigs: Vec<Rig>,
) -> (Result<(), TalkFault>, Vec<Rig>)
    requires begins { MayBegin ⟦<dyn System as System>⟧ setup.now rigs.items }
    requires clients { clients ≤ setup.now.players }
    ensures lives { Lives result.0 setup.now clients (T.history talk.old) (T.history talk.new) }
    ensures settled { (T.history talk.new).kept ≡ [] }
    ensures causes { Causes result.0 (T.history talk.old) (T.history talk.new) }
    ensures rigs { ComeBack ⟦<dyn System as System>⟧ setup.now rigs result.1 }
{
    match Session::new(alloc, setup, orders, rigs) {
        Ok(mut session) => {
            let outcome = talk_over(alloc, &mut session, clients, talk);
            let ended = settled(outcome, talk);
            (ended, session.finish())
        }
        Err(rigs) => (settled(Err(TalkFault::OutOfMemory), talk), rigs),
    }
}

// Begins the session, and talks over it to the end of the input.
fn talk_over<T: Talk>(
    alloc: Global,
    session: &mut Session<'_>,
    clients: u8,
    talk: &mut T,
) -> Result<(), TalkFault>
    requires { HasOpened ⟦<dyn System as System>⟧ 0 clients session.old }
    ensures lives { Lives result (setup_in session.old) clients (T.history talk.old) (T.history talk.new) }
    ensures keeps { Keeps ⟦<dyn System as System>⟧ session.old session.new }
{
    session.start(clients)?;
    tell_starts(alloc, session, clients, talk)?;
    answer_all(alloc, session, clients, talk)?;
    tell_ending(alloc, session, clients, talk)
}

// Tells who is on in the beginning.
fn tell_starts<T: Talk>(
    alloc: Global,
    session: &Session<'_>,
    clients: u8,
    talk: &mut T,
) -> Result<(), TalkFault>
    requires { HasOpened ⟦<dyn System as System>⟧ clients clients session.now }
    ensures { TellsText result (first_text (setup_in session.now) clients) (T.history talk.old) (T.history talk.new) }
{
    let mut text = String::new(alloc);
    push_starts(session, clients, &mut text)?;
    talk.tell(text.as_bytes())?;
    Ok(())
}

// Answers line after line, to the end of the input. The number of clients at the beginning is for its contract alone.
fn answer_all<T: Talk>(
    alloc: Global,
    session: &mut Session<'_>,
    clients: u8,
    talk: &mut T,
) -> Result<(), TalkFault>
    requires { HasOpened ⟦<dyn System as System>⟧ clients clients session.old }
    ensures answers { AnswersAll result (setup_in session.old) clients (seen_in session.new) (T.history talk.old) (T.history talk.new) }
    ensures goes { GoesOn ⟦<dyn System as System>⟧ result session.old session.new }
{
    let mut line = Vec::new(alloc);
    let mut made = 0;
    for _before in 0..u64::MAX {
        if !talk.hear(&mut line)? {
            return Ok(());
        }
        let (text, count) = answer(alloc, session, made, &line)?;
        talk.tell(text.as_bytes())?;
        made = count;
    }
    Ok(())
}

// Tells what the session has come to.
fn tell_ending<T: Talk>(
    alloc: Global,
    session: &Session<'_>,
    clients: u8,
    talk: &mut T,
) -> Result<(), TalkFault>
    requires session { IsSession session.now ⟦<dyn System as System>⟧ }
    ensures { (steps : List AnyStep) → StandsFor (setup_in session.now) (seen_in session.now) (session_over (setup_in session.now) clients steps)
        → TellsText result (last_text (setup_in session.now) clients steps) (T.history talk.old) (T.history talk.new) }
{
    let mut text = String::new(alloc);
    push_ending(
        session.setup(),
        session.clients(),
        session.exchange(),
        &mut text,
    )?;
    talk.tell(text.as_bytes())?;
    Ok(())
}
