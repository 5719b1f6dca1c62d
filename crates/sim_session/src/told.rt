//! The lines of what a session tells: its events, and what its server has come to.

ghost use Rattle.std.specs.Prelude.{OnOk, string_bytes, ◌++◌, ◌≡◌};
ghost use Rattle.sim_session.specs.Served.{kept_lines};
ghost use Rattle.{sim_report.specs.Downs.released_line, sim_server.specs.Standing.server_of as plain_server, sim_session.specs.Laws.lines_of};

use crate::serve::push_all_kept;
use sim_base::{Events, OutOfMemory};
use sim_report::{push_event, push_released};
use sim_server::Server;

/// Appends a line of each event.
pub fn push_events(events: &Events, out: &mut String) -> Result<(), OutOfMemory>
    ensures { OnOk result (string_bytes out.new ≡ string_bytes out.old ++ lines_of events.now) }
{
    for event in events.as_slice() {
        push_event(event, out)?;
    }
    Ok(())
}

/// Appends what a server has released, and how many commands it keeps of which turn up to this one.
pub fn push_server(server: &Server, turns: u32, out: &mut String) -> Result<(), OutOfMemory>
    ensures { OnOk result (string_bytes out.new ≡ string_bytes out.old
        ++ (released_line (plain_server server.now).released ++ kept_lines (plain_server server.now).kept turns)) }
{
    push_released(server.released(), out)?;
    push_all_kept(server, turns, out)
}
