//! Valid pasts, and who stands where.

ghost use Rattle.sim_session_laws.specs.Standing.{Always, HeardBytesSpellAState, InHasState, KnownAreOfPlayers, NoStateIsRefused, OffIsOut, OnIsIn, OutHasWish};
ghost use Rattle.sim_session_laws.specs.Standing.{PastsAreValid, StatesHaveTurns, StrangersAreOut, WaitingHasDonor};

/// The state after every past in a session is valid and at the turn that the past has, and so no state that a client
/// hears is refused: in bytes, it is the spelling of a valid state. Every command that a client knows is by a player of the match.
pub fn pasts_lead_to_valid_states()
    ensures valid { Always PastsAreValid }
    ensures turns { Always StatesHaveTurns }
    ensures heard { Always NoStateIsRefused }
    ensures bytes { Always HeardBytesSpellAState }
    ensures known { Always KnownAreOfPlayers }
{}

/// What a client is, and what lies in its pipes, fits what it is to the server.
pub fn clients_stand_where_the_server_sees_them()
    ensures off { Always OffIsOut }
    ensures on { Always OnIsIn }
    ensures wishes { Always OutHasWish }
    ensures waits { Always WaitingHasDonor }
    ensures loads { Always InHasState }
    ensures strangers { Always StrangersAreOut }
{}
