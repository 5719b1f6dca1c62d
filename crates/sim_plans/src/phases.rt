//! Laws of the changes of a phase.

ghost use Rattle.sim_plans.specs.{Common.{aimed, gone, hit, moved}, Plans.{aim_plan, gone_plan, hit_plan, move_plan, Plans}};

/// The changes by which fighters choose their targets.
pub fn aims_are_planned()
    ensures { Plans aim_plan aimed }
{}

/// The changes by which rows move.
pub fn moves_are_planned()
    ensures { Plans move_plan moved }
{}

/// The changes by which fighters hit.
pub fn hits_are_planned()
    ensures { Plans hit_plan hit }
{}

/// The changes by which those without health leave.
pub fn leaving_is_planned()
    ensures { Plans (λ setup state. gone_plan state) (λ setup state. gone state) }
{}
