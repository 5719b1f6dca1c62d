//! The turn numbers of a session.

ghost use Rattle.sim_session_laws.specs.Standing.{Always, CarriedAreReleased, DonesAreCounted, DonesAreNear, DonesAreTurns, DonesGoOn, ReleasedAreFinal};
ghost use Rattle.sim_session_laws.specs.Standing.{ReleasedAreTurns, ReleasedOnlyRise, ReleasesAreReleased, StampsAreTurns, StateHasDone, TurnsAreReleased};

/// The dones of a client go on by one from what the server has of it, and each will be accepted.
pub fn dones_are_accepted()
    ensures turns { Always DonesAreTurns }
    ensures counted { Always DonesAreCounted }
    ensures go_on { Always DonesGoOn }
    ensures near { Always DonesAreNear }
    ensures loads { Always StateHasDone }
{}

/// Nobody plays or hears of a turn that is not released, and what is released stays so, with its commands.
pub fn releases_are_kept()
    ensures turns { Always ReleasedAreTurns }
    ensures messages { Always ReleasesAreReleased }
    ensures clients { Always TurnsAreReleased }
    ensures carried { Always CarriedAreReleased }
    ensures stamps { Always StampsAreTurns }
    ensures commands { ReleasedAreFinal }
    ensures rise { ReleasedOnlyRise }
{}
