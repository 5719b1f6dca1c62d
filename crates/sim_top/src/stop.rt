//! Why a command ends before it has its text. Each file and each number that it is given may end it; the order in which
//! they do is the order of the calls.

ghost use Rattle.std.specs.Prelude.{◌≡◌};
ghost use Rattle.sim_top.specs.Stops.{economy_stop, IsStateStop, list_stop, log_stop, map_stop, setup_stop, status_of};
ghost use Rattle.sim_top.specs.declared.stop.Stop.TheVariants as stops;

use crate::status::Status;
use sim_base::OutOfMemory;
use sim_codec::StateFault;
use sim_lists::ListFault;
use sim_replay::LogFault;
use sim_setup::SetupFault;
use sim_stock::EconomyFault;
use sim_vision::SightFault;

/// Why a command ends before it has its text.
#[derive(Clone, Copy, Debug, PartialEq, Eq)]
pub enum Stop<'w> {
    /// A file could not be read.
    ReadFault,
    /// A file has more bytes than a file may have.
    TooLong,
    /// A file is not there.
    NoFile,
    /// Memory was refused.
    OutOfMemory,
    /// The match file is refused for this code, at this index of what the code speaks of.
    MatchRefused { code: u8, index: u32 },
    /// The stored state in the file of this name is refused for this code.
    StateRefused { code: u8, name: &'w str },
    /// A list of steps or arrivals is refused, at this item, or at 0 for the whole.
    ListRefused { index: u32 },
    /// The match has not as many turns as were asked for.
    NoSuchTurn { asked: u32, turns: u32 },
    /// The explored cells of a file are refused for this code.
    SightRefused { code: u8 },
    /// The log of a file is refused, at this line.
    LogRefused { line: u32 },
    /// The economy of a file is refused, at this deed, or at 0 for all else.
    EconomyRefused { index: u32 },
}

impl<'w> From<OutOfMemory> for Stop<'w> {
    ghost from_gives = { λ _ stop. stop ≡ stops.OutOfMemory };

    fn from(_: OutOfMemory) -> Stop<'w> {
        Stop::OutOfMemory
    }
}

impl<'w> From<SetupFault> for Stop<'w> {
    ghost from_gives = { λ fault stop. stop ≡ setup_stop fault };

    fn from(fault: SetupFault) -> Stop<'w> {
        match fault {
            SetupFault::Refused { code, index } => Stop::MatchRefused { code, index },
            SetupFault::OutOfMemory => Stop::OutOfMemory,
        }
    }
}

impl<'w> From<ListFault> for Stop<'w> {
    ghost from_gives = { λ fault stop. stop ≡ list_stop fault };

    fn from(fault: ListFault) -> Stop<'w> {
        match fault {
            ListFault::Refused { index } => Stop::ListRefused { index },
            ListFault::OutOfMemory => Stop::OutOfMemory,
        }
    }
}

impl<'w> From<SightFault> for Stop<'w> {
    ghost from_gives = { λ fault stop. stop ≡ map_stop fault };

    fn from(fault: SightFault) -> Stop<'w> {
        match fault {
            SightFault::Length => Stop::SightRefused { code: 1 },
            SightFault::NotBit => Stop::SightRefused { code: 2 },
            SightFault::Unseen => Stop::SightRefused { code: 3 },
            SightFault::OutOfMemory => Stop::OutOfMemory,
        }
    }
}

impl<'w> From<LogFault> for Stop<'w> {
    ghost from_gives = { λ fault stop. stop ≡ log_stop fault };

    fn from(fault: LogFault) -> Stop<'w> {
        match fault {
            LogFault::Refused { line } => Stop::LogRefused { line },
            LogFault::OutOfMemory => Stop::OutOfMemory,
        }
    }
}

impl<'w> From<EconomyFault> for Stop<'w> {
    ghost from_gives = { λ fault stop. stop ≡ economy_stop fault };

    fn from(fault: EconomyFault) -> Stop<'w> {
        match fault {
            EconomyFault::Refused { index } => Stop::EconomyRefused { index },
            EconomyFault::OutOfMemory => Stop::OutOfMemory,
        }
    }
}

impl<'w> Stop<'w> {
    /// Why a command ends whose stored state, in the file of this name, is not loaded.
    pub fn of_state(fault: StateFault, name: &'w str) -> Stop<'w>
        ensures { IsStateStop fault name.now result }
    {
        match fault {
            StateFault::NotState => Stop::StateRefused { code: 1, name },
            StateFault::OtherMatch => Stop::StateRefused { code: 2, name },
            StateFault::Grammar => Stop::StateRefused { code: 3, name },
            StateFault::OutOfMemory => Stop::OutOfMemory,
        }
    }

    /// The status with which the run then ends.
    pub fn status(&self) -> Status
        ensures { result ≡ status_of self.now }
    {
        match self {
            Stop::ReadFault => Status::ReadFault,
            Stop::TooLong => Status::TooLong,
            Stop::NoFile => Status::NoFile,
            Stop::OutOfMemory => Status::OutOfMemory,
            Stop::MatchRefused { .. } => Status::MatchRefused,
            Stop::StateRefused { .. } => Status::StateRefused,
            Stop::ListRefused { .. } => Status::ListRefused,
            Stop::NoSuchTurn { .. } => Status::NoSuchTurn,
            Stop::SightRefused { .. } => Status::SightRefused,
            Stop::LogRefused { .. } => Status::LogRefused,
            Stop::EconomyRefused { .. } => Status::EconomyRefused,
        }
    }
}
