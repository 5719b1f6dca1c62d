//! What a session prints.

ghost use Rattle.sim_plain_session.specs.Sessions.{EventsAreInOrder, EventsAreOfSteps, EventsAreShown, EventsGoOn, NoticesAreOfArrivals, ServerIsAfterArrivals};
ghost use Rattle.sim_plain_session.specs.Sessions.{SessionGoesOn, StartsAreShown, StepsHaveEvents};

/// The server of a session is the one after all arrivals, and the notices that are printed are those of them: one, in
/// order, for each accepted report that differs from the first of its turn.
pub fn a_server_is_after_its_arrivals()
    ensures server { ServerIsAfterArrivals }
    ensures notices { NoticesAreOfArrivals }
{}

/// A turn, a load or a bend that is printed is that of its client, and the digest is that of the plain turn function over
/// the past that the client then has.
pub fn events_show_states()
    ensures steps { EventsAreShown }
    ensures starts { StartsAreShown }
{}

/// An event of a step is of that step, which then could be done and has it; and such a step has just that one event.
pub fn steps_have_events()
    ensures events { EventsAreOfSteps }
    ensures steps { StepsHaveEvents }
{}

/// The session over one step more is that of the steps so far, stepped once, and what is printed of it comes behind. So the
/// events of a session are those of its start, and then those of each step after the steps before it.
pub fn sessions_go_on()
    ensures session { SessionGoesOn }
    ensures events { EventsGoOn }
    ensures order { EventsAreInOrder }
{}
