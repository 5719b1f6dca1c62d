//! What the text of a session shows, as the contracts of functions that do nothing.

ghost use Rattle.sim_session.specs.{Laws.StepsAreTold, Laws.StepsShowPasts, Laws.UnbentAreTogether, Seen.EndingsAreSeen};
ghost use Rattle.sim_session.specs.Laws.{ApartWhereDifferent, EndsShowPasts, EventsShowPasts, NoticesAreOfReports, PlaysAreTold, StartsShowPasts};

/// Each digest that is printed is that of the state which the plain turn function gives for the past that its client has
/// right after the step of the line. A past without a bend is exactly the turns with the commands that the server keeps of
/// them then, and in the end.
pub fn printed_digests_are_of_pasts()
    ensures starts { StartsShowPasts }
    ensures steps { StepsShowPasts }
    ensures events { EventsShowPasts }
    ensures ends { EndsShowPasts }
{}

/// Each turn that a client plays has just one line, and so has each other step that has one.
pub fn each_play_is_printed()
    ensures plays { PlaysAreTold }
    ensures steps { StepsAreTold }
{}

/// A notice is printed exactly where an accepted report differs from the first one of its turn.
pub fn printed_notices_are_of_reports()
    ensures { NoticesAreOfReports }
{}

/// Two clients at one turn are said to differ exactly where their states do. Those that were not bent never do.
pub fn clients_apart_differ()
    ensures different { ApartWhereDifferent }
    ensures unbent { UnbentAreTogether }
{}

/// What is seen of clients that have states and of pipes of frames is what is told of the session for which they stand.
pub fn endings_are_seen()
    ensures { EndingsAreSeen }
{}
