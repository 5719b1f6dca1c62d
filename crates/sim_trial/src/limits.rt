//! The limits of a trial, which keep its file far below the longest that is read.

ghost use Rattle.std.specs.Prelude.{◌≡◌, ◌↔◌, IsTrue};
ghost use Rattle.sim_trial.specs.Trial.{is_trial as is_trial_of, IsTrial};

/// The greatest seed of a trial, which has nine digits.
pub const MAX_SEED: u64 = 999_999_999;

/// The most soldiers of a trial, both players' together.
pub const MAX_UNITS: u32 = 1000;

/// The most turns of a trial.
pub const MAX_TURNS: u32 = 10_000;

/// Whether there is a trial of this seed with so many soldiers and turns.
pub fn is_trial(seed: u64, units: u32, turns: u32) -> bool
    ensures limits { IsTrue result ↔ IsTrial seed units turns }
    ensures value { result ≡ is_trial_of seed units turns }
{
    seed <= MAX_SEED && 1 <= units && units <= MAX_UNITS && turns <= MAX_TURNS
}
