//! The whole talk with the server: it begins, each line is answered before the next one is heard, and at the end of the input it is told what
//! the server has come to. However it ends, all that was told is written then.

ghost use Rattle.{sim_live.specs.Relays.{AnswersAll, end_lines, IsRelay, Relays, rules_of}, sim_report.specs.Downs.released_line};
ghost use Rattle.{sim_server.specs.Standing.{IsSmallServer, server_of, StandsFor}, sim_talk.specs.Dialogues.{Causes, TellsText}};
ghost use Rattle.std.specs.Prelude.{[], ◌≡◌};

use crate::replying::reply;
use sim_base::{Global, OutOfMemory};
use sim_report::push_released;
use sim_server::Server;
use sim_session::push_all_kept;
use sim_talk::{Talk, TalkFault, settled};

/// What a server must know of the match of its clients: of so many clients, so many of whom are in it from the beginning, with its delay
/// and its turns.
#[derive(Clone, Copy, Debug, PartialEq, Eq)]
pub struct RelayRules {
    pub clients: u8,
    pub active: u8,
    pub delay: u8,
    pub turns: u32,
}

/// Talks as the server.
pub fn relay<T: Talk>(alloc: Global, rules: RelayRules, talk: &mut T) -> Result<(), TalkFault>
    requires { IsRelay rules }
    ensures relays { Relays result rules (T.history talk.old) (T.history talk.new) }
    ensures settled { (T.history talk.new).kept ≡ [] }
    ensures causes { Causes result (T.history talk.old) (T.history talk.new) }
{
    let outcome = talk_over(alloc, rules, talk);
    settled(outcome, talk)
}

// Begins the server, and talks as it to the end of the input.
fn talk_over<T: Talk>(alloc: Global, rules: RelayRules, talk: &mut T) -> Result<(), TalkFault>
    requires { IsRelay rules }
    ensures relays { Relays result rules (T.history talk.old) (T.history talk.new) }
{
    let mut server = Server::new(alloc, rules.clients, rules.active, rules.delay, rules.turns)?;
    tell_released(alloc, &server, talk)?;
    answer_all(alloc, &mut server, rules, talk)?;
    tell_end(alloc, &server, rules.turns, talk)
}

// Tells what is released in the beginning.
fn tell_released<T: Talk>(alloc: Global, server: &Server, talk: &mut T) -> Result<(), TalkFault>
    ensures { TellsText result (released_line (server_of server.now).released) (T.history talk.old) (T.history talk.new) }
{
    let mut text = String::new(alloc);
    push_released(server.released(), &mut text)?;
    talk.tell(text.as_bytes())?;
    Ok(())
}

// Answers line after line, to the end of the input.
fn answer_all<T: Talk>(
    alloc: Global,
    server: &mut Server,
    rules: RelayRules,
    talk: &mut T,
) -> Result<(), TalkFault>
    requires rules { server.old.rules ≡ rules_of rules }
    requires small { IsSmallServer (server_of server.old) }
    requires opened { StandsFor server.old rules.active [] }
    ensures answers { AnswersAll result rules server.new (T.history talk.old) (T.history talk.new) }
{
    let mut line = Vec::new(alloc);
    let mut heard = 0;
    for _before in 0..u64::MAX {
        if !talk.hear(&mut line)? {
            return Ok(());
        }
        let (text, count) = reply(alloc, server, rules.clients, heard, &line)?;
        talk.tell(text.as_bytes())?;
        heard = count;
    }
    Ok(())
}

// Tells what the server has come to.
fn tell_end<T: Talk>(
    alloc: Global,
    server: &Server,
    turns: u32,
    talk: &mut T,
) -> Result<(), TalkFault>
    ensures { TellsText result (end_lines (server_of server.now) turns) (T.history talk.old) (T.history talk.new) }
{
    let mut text = String::new(alloc);
    push_released(server.released(), &mut text)?;
    push_all_kept(server, turns, &mut text)?;
    talk.tell(text.as_bytes())?;
    Ok(())
}
