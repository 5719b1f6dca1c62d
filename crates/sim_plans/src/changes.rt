//! Laws of changes.

ghost use Rattle.sim_plans.specs.Plans.{AllFittingKeepLoose, FittingKeepsLoose, OneAfterAnother, RowByRow};

/// A change that fits keeps a state loosely valid, and so do several that fit in order.
pub fn a_fitting_change_keeps_a_state()
    ensures one { FittingKeepsLoose }
    ensures all { AllFittingKeepLoose }
{}

/// Changes that each touch their own row may be found from the rows as they were before.
pub fn rows_are_changed_one_by_one()
    ensures { RowByRow }
{}

/// A plan may follow a plan.
pub fn plans_follow()
    ensures { OneAfterAnother }
{}
