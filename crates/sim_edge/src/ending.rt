//! How a talk ends: as any run does, or by a fault of hearing or telling. The numbers of the faults stand here and nowhere else.

ghost use Rattle.std.specs.Prelude.{◌≡◌};
ghost use Rattle.sim_edge.specs.Endings.{ending_of, number_of, unheard_as};

use sim_talk::{HearFault, TalkFault};
use sim_top::Status;

/// How a talk ends.
#[derive(Clone, Copy, Debug, PartialEq, Eq)]
pub enum Ending {
    /// As a run does.
    Run { status: Status },
    /// Reading a line failed.
    Unread,
    /// The input ended within a line.
    CutOff,
    /// A line is longer than a line may be.
    LineTooLong,
    /// A line is not UTF-8.
    NoText,
    /// A text was not told whole.
    Untold,
}

impl From<TalkFault> for Ending {
    ghost from_gives = { λ fault ending. ending ≡ ending_of fault };

    fn from(fault: TalkFault) -> Ending {
        match fault {
            TalkFault::Unheard { fault } => unheard(fault),
            TalkFault::Untold => Ending::Untold,
            TalkFault::OutOfMemory => Ending::Run {
                status: Status::OutOfMemory,
            },
        }
    }
}

// The ending of a talk in which a line was not heard.
fn unheard(fault: HearFault) -> Ending
    ensures { result ≡ unheard_as fault }
{
    match fault {
        HearFault::Failed => Ending::Unread,
        HearFault::CutOff => Ending::CutOff,
        HearFault::TooLong => Ending::LineTooLong,
        HearFault::NoText => Ending::NoText,
        HearFault::OutOfMemory => Ending::Run {
            status: Status::OutOfMemory,
        },
    }
}

impl Ending {
    /// The number that the process ends with.
    pub fn number(self) -> u8
        ensures { result ≡ number_of self }
    {
        match self {
            Ending::Run { status } => status.number(),
            Ending::Unread => 15,
            Ending::CutOff => 16,
            Ending::LineTooLong => 17,
            Ending::NoText => 18,
            Ending::Untold => 19,
        }
    }
}
