//! How a run ends. The numbers stand here and nowhere else.

ghost use Rattle.std.specs.Prelude.{◌≡◌};
ghost use Rattle.sim_top.specs.Reads.{status_number};

/// How a run ends.
#[derive(Clone, Copy, Debug, PartialEq, Eq)]
pub enum Status {
    /// All was done.
    Done,
    /// All was done, and the two states that were compared differ, or a log and the match that is played by it.
    Differs,
    /// The words are none of a command.
    Usage,
    /// A file could not be read.
    ReadFault,
    /// A file or the text could not be written.
    WriteFault,
    /// A file has more bytes than a file may have.
    TooLong,
    /// The match file is refused.
    MatchRefused,
    /// A stored state is refused.
    StateRefused,
    /// A list of steps or arrivals is refused.
    ListRefused,
    /// Memory was refused.
    OutOfMemory,
    /// The match has not as many turns as were asked for.
    NoSuchTurn,
    /// A file is not there.
    NoFile,
    /// The explored cells of a file are refused.
    SightRefused,
    /// The log of a file is refused.
    LogRefused,
    /// The economy of a file is refused.
    EconomyRefused,
}

impl Status {
    /// The number that the process ends with.
    pub fn number(self) -> u8
        ensures { result ≡ status_number self }
    {
        match self {
            Status::Done => 0,
            Status::Differs => 1,
            Status::Usage => 2,
            Status::ReadFault => 3,
            Status::WriteFault => 4,
            Status::TooLong => 5,
            Status::MatchRefused => 6,
            Status::StateRefused => 7,
            Status::ListRefused => 8,
            Status::OutOfMemory => 9,
            Status::NoSuchTurn => 10,
            Status::NoFile => 11,
            Status::SightRefused => 12,
            Status::LogRefused => 13,
            Status::EconomyRefused => 14,
        }
    }
}
