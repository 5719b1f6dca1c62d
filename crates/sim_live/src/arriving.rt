//! What arrives by a line: bytes of a client, or the end of its connection, as a schedule spells them. A schedule can spell messages in
//! words too; who relays has them as bytes, and a line with words is refused.

ghost use Rattle.{serde_json.specs.View.view, sim_live.specs.Arrived.arriving_in as arriving_in_data};
ghost use Rattle.sim_live.specs.{Arrived.arriving_of as arriving_of_bytes, Arrived.IsFromOne, Arrived.told_of, Reading.Reads};
ghost use Rattle.std.specs.Prelude.{◌≡◌, IfSome};

use serde_json::Value;
use sim_base::{Global, OutOfMemory};
use sim_json::value_of;
use sim_lists::{Arrival, Said, arrival_of};
use sim_wire::Bytes;

/// What arrives at the server, and from which client.
#[derive(Debug, Drop)]
pub enum Arriving {
    /// Bytes of a client.
    Frame { from: u8, bytes: Bytes },
    /// The connection of a client has ended.
    Cut { from: u8 },
}

/// What arrives by a line from one of so many clients, or None where the line is no arrival.
pub fn arriving_of(alloc: Global, clients: u8, line: &[u8]) -> Result<Option<Arriving>, OutOfMemory>
    ensures { Reads (λ found. IfSome found (IsFromOne clients)) (arriving_of_bytes clients line.now) result }
{
    match value_of(alloc, line)? {
        Some(value) => arriving_in(alloc, clients, &value),
        None => Ok(None),
    }
}

fn arriving_in(alloc: Global, clients: u8, value: &Value) -> Result<Option<Arriving>, OutOfMemory>
    ensures { Reads (λ found. IfSome found (IsFromOne clients)) (arriving_in_data clients (view value.now)) result }
{
    match arrival_of(alloc, clients, value)? {
        Some(arrival) => Ok(told(arrival)),
        None => Ok(None),
    }
}

// An arrival that is no message in words.
fn told(arrival: Arrival) -> Option<Arriving>
    ensures { result ≡ told_of arrival }
{
    let Arrival { from, said } = arrival;
    match said {
        Said::Raw { bytes } => Some(Arriving::Frame { from, bytes }),
        Said::Cut => Some(Arriving::Cut { from }),
        Said::Heard { .. } => None,
    }
}
