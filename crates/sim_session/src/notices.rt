//! A theorem about what is said at a list of arrivals, as the contract of a function that does nothing.

ghost use Rattle.sim_session.specs.ServedLaws.{NoticesAreSaid};

/// The notices that the reporters themselves are told are those of the whole list: one for each accepted report that
/// differs from the first one of its turn, in order. Each other client that is in is told the same at the same time.
pub fn notices_are_those_of_the_list()
    ensures { NoticesAreSaid }
{}
