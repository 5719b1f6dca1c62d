//! What somebody at a terminal is told where he asks for help, by the talk that he asked for.

use crate::asking::Asked;

// Of a session.
const LIVE_HELP: &str = "\
a line is a step, a look, help or quit. Steps, C being a client:
  up C                        the server hears the first message of C
  down C                      C hears the first message for it
  play C                      C plays its next turn
  join C · cut C              C joins · its connection ends
  bend C ENTITY HEALTH        a health of C's own state is bent: a desync
  order C walk IDS to X Z     C commands; IDS as 2,3, or - for none
  order C stop IDS · attack IDS on ID · delete IDS · place N at X Z · train ID N · resign
looks:
  digest C · show C · state C · pipes · kept
the same as JSON: [\"order\",1,\"walk\",[2,3],\"6.5\",\"2.5\"]
";

// Of the server.
const RELAY_HELP: &str = "\
a line is an arrival, help or quit. Arrivals, C being a client:
  [C,\"bytes\",\"HEX\"]  these bytes came from C: a frame, or none, which cuts C off
  C cut               the connection of C has ended
the same as JSON: [C,\"cut\"]
";

/// The help of a talk.
pub fn help_of(asked: &Asked<'_>) -> &'static str {
    match asked {
        Asked::Live { .. } => LIVE_HELP,
        Asked::Relay { .. } => RELAY_HELP,
    }
}
