//! The phases of a fight as changes: fighters choose their targets, hit them, and those without health leave.
//!
//! It promises changes that fit the state in order and give the phase of the rule, each phase by the state before it. Whom
//! a row sees is asked of the scene only for a row that looks for a target. It stands on `sim_plans`, which has the changes
//! as lists, and the scene.
//!
//! - `battle`: what all rows of a phase are looked at with.
//! - `aim`: whom a row takes as target, and the phase in which fighters aim.
//! - `finds`: what rows that stand together find but once.
//! - `damage`: what a hit takes.
//! - `hit`: the phase in which fighters hit.
//! - `gone`: the phase in which those without health leave.
#![tactic(auto)]

mod aim;
mod battle;
mod damage;
mod finds;
mod gone;
mod hit;

pub use aim::aim_changes;
pub use gone::gone_changes;
pub use hit::hit_changes;
