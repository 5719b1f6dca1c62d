//! A client that has a state in place of a past.

ghost use Rattle.sim_plain_session.specs.Players.{BeginningStands, BendingStands, LearningStands, PlayingStands, SameMark, SameTurn};

/// A client that has a state and knows of the turns to come goes on standing for one that has a past, whatever it forgets
/// of the turns that it has played.
pub fn players_stand_for_clients()
    ensures same { SameTurn }
    ensures mark { SameMark }
    ensures begins { BeginningStands }
    ensures plays { PlayingStands }
    ensures bends { BendingStands }
    ensures learns { LearningStands }
{}
