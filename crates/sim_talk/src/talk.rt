//! The trait of a talk: what comes and what goes, in one history, so that a clause can say what had been told when a line was asked
//! for. What is told may be kept for a while, and is written before anybody is waited for.

ghost use Rattle.sim_talk.specs.{Dialogues.EndsAs, Talks.Hears, Talks.History, Talks.Settles, Talks.Tells};

use crate::fault::TalkFault;
use sim_store::Failed;

/// Lines come in and texts go out.
pub trait Talk {
    /// What the talk tells of what has passed and of what is to come.
    ghost history: { Self → History };

    /// Waits for the next line, and puts it in place of what the buffer held, without what ends it. False is the end of the input.
    fn hear(&mut self, line: &mut Vec<u8>) -> Result<bool, TalkFault>
        ensures { Hears result line.new.items (history self.old) (history self.new) };

    /// Tells the whole text, or a beginning of it where that fails. It may be kept until the next line is waited for, or all is settled.
    fn tell(&mut self, text: &[u8]) -> Result<(), Failed>
        ensures { Tells result text.now (history self.old) (history self.new) };

    /// Writes all that was told and is kept, or a beginning of it where that fails. Nothing is kept then.
    fn settle(&mut self) -> Result<(), Failed>
        ensures { Settles result (history self.old) (history self.new) };
}

/// How a talk ends that has come to this: all that was told is written, and where that fails it ends so.
pub fn settled<T: Talk>(outcome: Result<(), TalkFault>, talk: &mut T) -> Result<(), TalkFault>
    ensures { EndsAs outcome result (T.history talk.old) (T.history talk.new) }
{
    talk.settle()?;
    outcome
}
