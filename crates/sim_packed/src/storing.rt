//! The name of the file that words ask to write.

ghost use Rattle.std.specs.Prelude.{◌≡◌, ℕ, List, option_map};
ghost use Rattle.sim_top.specs.Words.{asked_by, asked_of_three, asked_of_two, out_of as out_of_asked, words_of};

use sim_top::turn_of;

/// The name of OUT, where the words are those of a command that writes one.
pub fn out_of(words: &[String]) -> Option<&str>
    ensures { option_map (λ out. out.now) result ≡ out_of_asked (asked_by (words_of words.now)) }
{
    match words {
        [command, _, out] => out_of_two(command.as_str(), out.as_str()),
        [command, _, turn, out] => out_of_three(command.as_str(), turn.as_str(), out.as_str()),
        _ => None,
    }
}

fn out_of_two<'w>(command: &str, out: &'w str) -> Option<&'w str>
    ensures { (a : List ℕ) → option_map (λ out. out.now) result ≡ out_of_asked (asked_of_two command.now a out.now) }
{
    if command == "log" { Some(out) } else { None }
}

fn out_of_three<'w>(command: &str, turn: &str, out: &'w str) -> Option<&'w str>
    ensures { (a : List ℕ) → option_map (λ out. out.now) result ≡ out_of_asked (asked_of_three command.now a turn.now out.now) }
{
    if command == "record" {
        return Some(out);
    }
    if command == "state" || command == "sight" {
        turn_of(turn)?;
        return Some(out);
    }
    None
}
