//! Theorems about the definitions, each the contract of a function that does nothing; and that what is spelled is taken,
//! which is the contract of a function that asks.

ghost use Rattle.std.specs.Prelude.{All, drop, IsOk, length, List, None, Some, ℕ, ◌<◌, ◌^◌, ◌↔◌, ◌≡◌};
ghost use Rattle.sim_codec.specs.Common.{HasShortWay, IsSetup, IsState, IsValid, One, Setup, State, Two, old_spelling, quick_bytes, spelling};
ghost use Rattle.sim_codec.specs.{Loading.HoldsNone, Loading.StandsFor, Loading.head_fault, Reading.HaveSamePlaces, Reading.state_at};

use crate::{StateFault, stands};
use sim_base::Setup;

/// In a state that is valid, or valid but for healths of 0, no way is too long to be told and the rows can be counted:
/// with the least health 1 or 0, this is what a spelling and a digest ask for.
pub fn states_can_be_told()
    ensures short { (least : ℕ) (setup : Setup) (state : State) → IsState least setup state → All HasShortWay state.rows }
    ensures few { (least : ℕ) (setup : Setup) (state : State) → IsState least setup state → length state.rows < 2 ^ 32 }
{}

/// The spelling of a valid state is refused for nothing in its head, and read back as that state; so is its spelling by
/// version 1, where no row holds its place.
pub fn spellings_are_read_back()
    ensures head { (setup : Setup) (state : State) → IsSetup setup → IsValid setup state → head_fault setup (spelling setup state) ≡ None }
    ensures state { (setup : Setup) (state : State) → IsSetup setup → IsValid setup state → state_at Two setup (drop 24 (spelling setup state)) ≡ Some state }
    ensures old_head { (setup : Setup) (state : State) → IsSetup setup → IsValid setup state → HoldsNone state.rows
        → head_fault setup (old_spelling setup state) ≡ None }
    ensures old_state { (setup : Setup) (state : State) → IsSetup setup → IsValid setup state → HoldsNone state.rows
        → state_at One setup (drop 24 (old_spelling setup state)) ≡ Some state }
{}

/// Bytes stand for at most one state of a match, so two valid states with one spelling are the same.
pub fn bytes_stand_for_one_state()
    ensures bytes { (setup : Setup) (bytes : List ℕ) (s t : State) → IsSetup setup → StandsFor setup bytes s → StandsFor setup bytes t → s ≡ t }
    ensures spellings { (setup : Setup) (s t : State) → IsSetup setup → IsValid setup s → IsValid setup t → spelling setup s ≡ spelling setup t → s ≡ t }
{}

/// What a quick digest is made of is the same for two valid states exactly where their clocks are the same, and the same
/// entities stand at the same places.
pub fn quick_bytes_are_of_places()
    ensures { (setup : Setup) (s t : State) → IsSetup setup → IsValid setup s → IsValid setup t → (quick_bytes s ≡ quick_bytes t) ↔ HaveSamePlaces s t }
{}

/// What spells a valid state is taken as a stored state, by version 1 where no row of it holds its place. It takes no memory
/// to say so; `load` takes what the state needs, and then gives that state.
pub fn a_spelling_is_taken(setup: &Setup, bytes: &[u8]) -> Result<(), StateFault>
    requires { IsSetup setup.now }
    ensures new { (state : State) → IsValid setup.now state → bytes.now ≡ spelling setup.now state → IsOk result }
    ensures old { (state : State) → IsValid setup.now state → HoldsNone state.rows → bytes.now ≡ old_spelling setup.now state → IsOk result }
{
    stands(setup, bytes)
}
