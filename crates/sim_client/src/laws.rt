//! Theorems about the definitions, each the contract of a function that does nothing.

ghost use Rattle.sim_client.specs.Lives.{BendingFollows, HearingFollows, JoiningFollows, OrderingFollows, PlayingFollows, StartingFollows};

/// A client that has a state follows one that has a past: through each step and each message it stands for it and says the
/// same, and what is printed can be seen of it.
pub fn lives_follow_phases()
    ensures starts { StartingFollows }
    ensures joins { JoiningFollows }
    ensures orders { OrderingFollows }
    ensures plays { PlayingFollows }
    ensures bends { BendingFollows }
    ensures hears { HearingFollows }
{}
