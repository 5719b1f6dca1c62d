//! Laws of the phases of a turn.

ghost use Rattle.{sim_base.specs.Turn.{aimed, hit, moved}, sim_laws.specs.PhaseLaws.{GoneIsValid, GoneKeepsTurn, KeepsLoose, KeepsTurn, KeepsValid}};

/// The phase in which fighters choose their targets keeps a state valid or loosely valid.
pub fn aiming_keeps()
    ensures loose { KeepsLoose aimed }
    ensures valid { KeepsValid aimed }
    ensures turn { KeepsTurn aimed }
{}

/// The phase in which rows move does so too.
pub fn moving_keeps()
    ensures loose { KeepsLoose moved }
    ensures valid { KeepsValid moved }
    ensures turn { KeepsTurn moved }
{}

/// The phase in which fighters hit keeps a state loosely valid: it may leave rows without health.
pub fn hitting_keeps()
    ensures loose { KeepsLoose hit }
    ensures turn { KeepsTurn hit }
{}

/// Where those rows are gone, the state is valid.
pub fn gone_is_valid()
    ensures valid { GoneIsValid }
    ensures turn { GoneKeepsTurn }
{}
