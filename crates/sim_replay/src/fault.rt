//! How bytes that are no log are refused.

ghost use Rattle.std.specs.Prelude.{◌^◌, ◌<◌, ◌≢◌};
ghost use Rattle.sim_replay.specs.Meets.{Tells};

use sim_base::OutOfMemory;

/// Why bytes are read as no log: the number of the first line, counted from 1, with which no log of the match goes on;
/// or memory was refused.
#[derive(Clone, Copy, Debug, PartialEq, Eq)]
pub enum LogFault {
    Refused { line: u32 },
    OutOfMemory,
}

impl From<OutOfMemory> for LogFault {
    ghost use Rattle.std.specs.Prelude.{◌≡◌};
    ghost use Rattle.sim_replay.specs.declared.fault.LogFault.TheVariants.{OutOfMemory};

    ghost from_gives = { λ _ fault. fault ≡ OutOfMemory };

    fn from(_: OutOfMemory) -> LogFault {
        LogFault::OutOfMemory
    }
}

/// The refusal of a line. One past 32 bits is want of memory: bytes that are fewer than that, as those of every file that is
/// read, have none.
pub fn refused(line: usize) -> LogFault
    ensures tells { Tells result line }
    ensures told { line < 2 ^ 32 → result ≢ LogFault.OutOfMemory }
{
    match u32::try_from(line) {
        Ok(line) => LogFault::Refused { line },
        Err(_) => LogFault::OutOfMemory,
    }
}
