//! How a call ends, as a number, and why it has no answer, as two numbers.

ghost use Rattle.std.specs.Prelude.{◌≡◌};
ghost use Rattle.sim_c.specs.Gives.{fault_of as fault_by, state_code as state_code_of, status_of};

use sim_codec::StateFault;
use sim_embed::Refused;

/// All was done; of a comparison, the states are the same.
pub const DONE: i32 = 0;
/// The two states differ.
pub const DIFFERS: i32 = 1;
/// The bytes are no match.
pub const MATCH_REFUSED: i32 = 6;
/// The bytes stand for no state of the match.
pub const STATE_REFUSED: i32 = 7;
/// The bytes are no list of commands.
pub const LIST_REFUSED: i32 = 8;
/// Memory was refused.
pub const NO_MEMORY: i32 = 9;
/// The match is over.
pub const NO_TURN: i32 = 10;
/// The room of the caller is too small.
pub const NO_ROOM: i32 = 100;
/// The handle is closed, or holds something else than the call is for; of one that opens: it is not closed.
pub const BAD_HANDLE: i32 = 101;
/// Nothing happens.
pub const IDLE: i32 = 102;
/// The bytes are no frame.
pub const FRAME_REFUSED: i32 = 103;
/// The match has no such player, or fewer than are to begin.
pub const NO_PLAYER: i32 = 104;
/// The client has no state.
pub const NOT_ON: i32 = 105;

/// Why a call has no answer: the code, and the index of what it speaks of. A call with an answer leaves it as it is.
#[repr(C)]
#[derive(Clone, Copy, Default)]
pub struct Fault {
    pub code: u32,
    pub index: u32,
}

/// Tells why there is no answer, and gives the status of that.
pub fn refuse(refused: &Refused, fault: &mut Fault) -> i32
    ensures status { result ≡ status_of refused.now }
    ensures fault { fault.new ≡ fault_by refused.now }
{
    *fault = fault_of(refused);
    status_by(refused)
}

fn status_by(refused: &Refused) -> i32
    ensures { result ≡ status_of refused.now }
{
    match refused {
        Refused::Match { .. } => MATCH_REFUSED,
        Refused::State { .. } => STATE_REFUSED,
        Refused::Commands { .. } => LIST_REFUSED,
        Refused::Over => NO_TURN,
        Refused::OutOfMemory => NO_MEMORY,
    }
}

fn fault_of(refused: &Refused) -> Fault
    ensures { result ≡ fault_by refused.now }
{
    match refused {
        Refused::Match { code, index } => Fault {
            code: u32::from(*code),
            index: *index,
        },
        Refused::State { fault, place } => Fault {
            code: state_code(*fault),
            index: *place,
        },
        Refused::Commands { index } => Fault {
            code: 0,
            index: *index,
        },
        Refused::Over | Refused::OutOfMemory => Fault { code: 0, index: 0 },
    }
}

// The code of a stored state that is refused, as the program prints it.
fn state_code(fault: StateFault) -> u32
    ensures { result ≡ state_code_of fault }
{
    match fault {
        StateFault::NotState => 1,
        StateFault::OtherMatch => 2,
        StateFault::Grammar => 3,
        StateFault::OutOfMemory => 0,
    }
}
