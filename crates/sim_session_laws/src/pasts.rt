//! The commands and the pasts of a session.

ghost use Rattle.sim_session_laws.specs.Standing.{Always, BehindStateAreKept, ComingAreAboveRelease, KeptAreOfPlayers, KeptAreTurns, KnownAndComingAreKept};
ghost use Rattle.sim_session_laws.specs.Standing.{NoneBehindRelease, UnbentAgree, UnbentAreKept};

/// What a client knows of a turn that it has not played, and what is on its way to it, is what the server keeps of it,
/// each command once and in order; and no command comes behind the release of its turn.
pub fn commands_reach_each_client()
    ensures coming { Always KnownAndComingAreKept }
    ensures above { Always ComingAreAboveRelease }
    ensures behind { Always NoneBehindRelease }
    ensures loads { Always BehindStateAreKept }
    ensures players { Always KeptAreOfPlayers }
    ensures turns { Always KeptAreTurns }
{}

/// A past without a bend is exactly the server's kept turns up to its turn. So two such clients at equal turns have equal
/// states.
pub fn unbent_clients_agree()
    ensures kept { Always UnbentAreKept }
    ensures agree { Always UnbentAgree }
{}
