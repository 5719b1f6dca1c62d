//! The soldiers of a trial, the first one of player 1, the next of player 2, and so on in turn. Two steps of the random
//! word place each: the first along x, on its player's side of the ground, the second along z.

ghost use Rattle.{sim_base.specs.Places.next_word as word_after, sim_trial.specs.Trial.{player_of as player_at, soldier_text, soldiers_text, x_of, z_of}};
ghost use Rattle.std.specs.Prelude.{IfOk, OnOk, string_bytes, ◌++◌, ◌+◌, ◌<◌, ◌^◌, ◌≡◌};

use crate::comma::push_comma;
use sim_base::{OutOfMemory, next_word};

// Appends that many soldiers, placed by the words after this one.
pub(crate) fn push_soldiers(seed: u64, units: u32, text: &mut String) -> Result<(), OutOfMemory>
    requires { seed < 2 ^ 48 }
    ensures { OnOk result (string_bytes text.new ≡ string_bytes text.old ++ soldiers_text seed units) }
{
    let mut word = seed;
    for place in 0..units {
        push_comma(place > 0, text)?;
        word = push_soldier(place, word, text)?;
    }
    Ok(())
}

// Appends the soldier of this place in the list, and answers the word after the two steps.
fn push_soldier(place: u32, word: u64, text: &mut String) -> Result<u64, OutOfMemory>
    requires { word < 2 ^ 48 }
    ensures word { IfOk result (λ after. after ≡ word_after (word_after word)) }
    ensures text { OnOk result (string_bytes text.new ≡ string_bytes text.old ++ soldier_text place word) }
{
    let player = player_of(place);
    let first = next_word(word);
    let second = next_word(first);
    let x = x_from(player, first);
    let z = z_from(second);
    write!(text, "[\"soldier\",{player},{x},{z}]")?;
    Ok(second)
}

// Whose soldier stands at a place in the list.
fn player_of(place: u32) -> u32
    ensures { result ≡ player_at place }
{
    if place % 2 == 0 { 1 } else { 2 }
}

fn x_from(player: u32, word: u64) -> u64
    ensures { result ≡ x_of player word }
{
    let column = (word >> 17) % 48;
    if player == 2 { column + 80 } else { column }
}

fn z_from(word: u64) -> u64
    ensures { result ≡ z_of word }
{
    (word >> 17) % 128
}
