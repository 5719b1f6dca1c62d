//! What a sight comes to over any list of states, as the contracts of functions that do nothing.

ghost use Rattle.std.specs.Prelude.{length, List, map, ℕ, ◌*◌, ◌||◌, ◌∷◌, ◌≡◌};
ghost use Rattle.sim_vision.specs.Vision.{all_counts, all_seen, blind, cells_in, explored_with, is_set, is_visible, joined_at, last_of, Vision, vision_after};
ghost use Rattle.sim_vision.specs.{Common.Setup, Common.State, Keeping.extent_in, Told.sight_lines, Told.sight_text, Vision.was_visible, Watching.flag_in};

/// After any list of states the counts are those of the last one's rows.
pub fn counts_are_of_the_last_state()
    ensures { (vision : Vision) (first : State) (later : List State) →
        (vision_after vision (first ∷ later)).counts ≡ all_counts vision.setup (last_of first later).rows }
{}

/// After any list of states the explored cells are those that were explored before, or were visible in one of the states.
pub fn explored_was_given_or_visible()
    ensures { (vision : Vision) (states : List State) → length vision.explored ≡ vision.setup.players * cells_in vision.setup →
        (vision_after vision states).explored ≡ explored_with vision.explored (all_seen vision.setup states) }
{}

/// Of one who began at no state all explored cells were visible in one of the states.
pub fn explored_was_visible()
    ensures { (setup : Setup) (states : List State) → (vision_after (blind setup) states).explored ≡ all_seen setup states }
{}

/// What is told of one who began at no state: the cells that are visible in the last state, and those that were visible in one
/// of them.
pub fn lines_from_the_start()
    ensures { (setup : Setup) (first : State) (later : List State) →
        sight_text (vision_after (blind setup) (first ∷ later))
        ≡ sight_lines setup (is_visible setup (last_of first later).rows) (was_visible setup (first ∷ later)) }
{}

/// What is told of one who joined with the explored cells of a file, and followed later states.
pub fn lines_from_a_file()
    ensures { (setup : Setup) (first : State) (bytes : List ℕ) (later : List State) → length bytes ≡ setup.players * cells_in setup →
        sight_text (vision_after (joined_at setup first bytes) later)
        ≡ sight_lines setup (is_visible setup (last_of first later).rows)
        (λ player c. flag_in (extent_in setup) (map is_set bytes) player c || was_visible setup later player c) }
{}
