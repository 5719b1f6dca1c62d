//! A talk with somebody at a terminal: he is asked for each line by a prompt, may type words in place of JSON, and is helped. It tells no
//! history but what failed, since what he types is not what is heard.

ghost use Rattle.sim_talk.specs.{LineTalk.CountsFaults, LineTalk.LacksMemory, Talks.untold};

use crate::{HearFault, Talk, TalkFault, json_of};
use sim_store::Failed;
use std::alloc::Global;

/// Another talk, with a prompt before each line.
#[derive(Drop)]
pub struct PromptTalk<T: Talk + Drop> {
    alloc: Global,
    talk: T,
    help: &'static str,
}

impl<T: Talk + Drop> PromptTalk<T> {
    /// A talk with this help.
    pub fn new(alloc: Global, talk: T, help: &'static str) -> PromptTalk<T> {
        PromptTalk { alloc, talk, help }
    }

    // Tells him a text.
    fn say(&mut self, text: &[u8]) -> Result<(), TalkFault>
        ensures { CountsFaults result (T.history self.old.talk) (T.history self.new.talk) }
    {
        self.talk.tell(text)?;
        Ok(())
    }

    // Asks for a line.
    fn ask(&mut self, line: &mut Vec<u8>) -> Result<bool, TalkFault>
        ensures { CountsFaults result (T.history self.old.talk) (T.history self.new.talk) }
    {
        self.say(b"> ")?;
        self.talk.hear(line)
    }

    // Asks once: whether there is a line or it is the end, or none where he typed nothing or is helped.
    fn ask_once(&mut self, line: &mut Vec<u8>) -> Result<Option<bool>, TalkFault>
        ensures { CountsFaults result (T.history self.old.talk) (T.history self.new.talk) }
    {
        if !self.ask(line)? {
            self.say(b"\n")?;
            return Ok(Some(false));
        }
        match line.as_slice() {
            b"" => Ok(None),
            b"help" => {
                self.say(self.help.as_bytes())?;
                Ok(None)
            }
            b"quit" => Ok(Some(false)),
            _ => {
                self.read(line)?;
                Ok(Some(true))
            }
        }
    }

    // Makes of a line in words one in JSON.
    fn read(&self, line: &mut Vec<u8>) -> Result<(), HearFault>
        ensures { LacksMemory result }
    {
        if line.first() != Some(&b'[') {
            *line = json_of(self.alloc, line.as_slice())?;
        }
        Ok(())
    }
}

impl<T: Talk + Drop> Talk for PromptTalk<T> {
    ghost history = { λ s. untold (T.history s.talk).unread (T.history s.talk).unwritten };

    fn hear(&mut self, line: &mut Vec<u8>) -> Result<bool, TalkFault> {
        for _ in 0..u64::MAX {
            if let Some(heard) = self.ask_once(line)? {
                return Ok(heard);
            }
        }
        Ok(false)
    }

    fn tell(&mut self, text: &[u8]) -> Result<(), Failed> {
        self.talk.tell(text)
    }

    fn settle(&mut self) -> Result<(), Failed> {
        self.talk.settle()
    }
}
