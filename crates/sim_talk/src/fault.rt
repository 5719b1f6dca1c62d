//! Why a line was not heard, and why a talk ended. Each cause has a name of its own, since who talks by a pipe learns of it by the
//! status alone.

ghost use Rattle.std.specs.Prelude.{◌≡◌};
ghost use Rattle.sim_talk.specs.declared.fault.HearFault.TheVariants.{Failed as failed, OutOfMemory as no_memory};
ghost use Rattle.sim_talk.specs.declared.fault.TalkFault.TheVariants as ends;

use sim_base::OutOfMemory;
use sim_store::Failed;
use std::alloc::AllocError;

/// Why no line was heard, though the input has not come to its end between two lines.
#[derive(Clone, Copy, Debug, PartialEq, Eq)]
pub enum HearFault {
    /// Reading failed.
    Failed,
    /// The input ended within a line.
    CutOff,
    /// The line is longer than a line may be.
    TooLong,
    /// The line is not UTF-8.
    NoText,
    /// Memory was refused.
    OutOfMemory,
}

impl From<Failed> for HearFault {
    ghost from_gives = { λ _ fault. fault ≡ failed };

    fn from(_: Failed) -> HearFault {
        HearFault::Failed
    }
}

impl From<AllocError> for HearFault {
    ghost from_gives = { λ _ fault. fault ≡ no_memory };

    fn from(_: AllocError) -> HearFault {
        HearFault::OutOfMemory
    }
}

/// Why a talk ended before its input did.
#[derive(Clone, Copy, Debug, PartialEq, Eq)]
pub enum TalkFault {
    /// A line was not heard, for this cause.
    Unheard { fault: HearFault },
    /// A text was not told, or not whole.
    Untold,
    /// Memory was refused for an answer.
    OutOfMemory,
}

impl From<HearFault> for TalkFault {
    ghost from_gives = { λ fault end. end ≡ ends.Unheard fault };

    fn from(fault: HearFault) -> TalkFault {
        TalkFault::Unheard { fault }
    }
}

impl From<Failed> for TalkFault {
    ghost from_gives = { λ _ end. end ≡ ends.Untold };

    fn from(_: Failed) -> TalkFault {
        TalkFault::Untold
    }
}

impl From<OutOfMemory> for TalkFault {
    ghost from_gives = { λ _ end. end ≡ ends.OutOfMemory };

    fn from(_: OutOfMemory) -> TalkFault {
        TalkFault::OutOfMemory
    }
}
