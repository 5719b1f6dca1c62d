//! A session in bytes.

ghost use Rattle.sim_plain_session.specs.Sessions.{BytesGoDown, BytesGoUp, ServerHearsBytes, ServerIsAfterBytes};

/// With the bytes of states in its messages a session is the same: what arrives in bytes makes the same server, and what
/// is said goes behind what lies in the pipes.
pub fn a_session_in_bytes_is_the_same()
    ensures heard { ServerHearsBytes }
    ensures server { ServerIsAfterBytes }
    ensures down { BytesGoDown }
    ensures up { BytesGoUp }
{}
