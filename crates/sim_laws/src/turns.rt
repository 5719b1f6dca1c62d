//! Laws of turns, bends and pasts.

ghost use Rattle.sim_laws.specs.TurnLaws.{AfterCountsTurns, AfterIsValid, BendKeepsTurn, BendKeepsValid, FromCountsTurns, FromKeepsValid, OwnTurnsAreOfPlayers};
ghost use Rattle.sim_laws.specs.TurnLaws.{OwnTurnsAreSoMany, TurnIsCounted, TurnKeepsValid};

/// A turn with commands of players of the match keeps a state valid that is not at the last turn, and is counted.
pub fn a_turn_keeps_a_state_valid()
    ensures valid { TurnKeepsValid }
    ensures counted { TurnIsCounted }
{}

/// A bend keeps a state valid, and is no turn.
pub fn a_bend_keeps_a_state_valid()
    ensures valid { BendKeepsValid }
    ensures turn { BendKeepsTurn }
{}

/// What happens to a valid state keeps it valid, as long as it does not lead beyond the last turn.
pub fn since_a_state()
    ensures valid { FromKeepsValid }
    ensures counted { FromCountsTurns }
{}

/// So the state after every past of the match is valid.
pub fn after_a_past_a_state_is_valid()
    ensures valid { AfterIsValid }
    ensures counted { AfterCountsTurns }
{}

/// The match's own turns are a past of the match.
pub fn own_turns_are_a_past()
    ensures of_players { OwnTurnsAreOfPlayers }
    ensures so_many { OwnTurnsAreSoMany }
{}
