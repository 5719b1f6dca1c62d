//! A stored state of a match, which is shown.

ghost use Rattle.std.specs.Prelude.{◌≡◌, IfOk, string_bytes};
ghost use Rattle.sim_top.specs.{Commands.IsAnswerTo, Commands.shelved, Common.IsValid, Common.show_text as text_of_show, Words.to_show};

use super::{Answer, shown};
use crate::inputs::{read_match, read_state};
use crate::stop::Stop;
use sim_base::{Global, OutOfMemory, Setup, State};
use sim_report::push_show;
use sim_store::Shelf;

/// Shows the state of a match that is stored in a file.
pub fn show<'w, S: Shelf>(
    alloc: Global,
    shelf: &mut S,
    game: &'w str,
    name: &'w str,
) -> Result<Answer<'w>, Stop<'w>>
    ensures { IsAnswerTo (to_show game.now name.now) result (shelved (S.held shelf.old) (S.counts shelf.old))
        (shelved (S.held shelf.new) (S.counts shelf.new)) }
{
    let setup = read_match(alloc, shelf, game)?;
    let state = read_state(alloc, shelf, &setup, name)?;
    shown(show_text(alloc, &setup, &state))
}

fn show_text(alloc: Global, setup: &Setup, state: &State) -> Result<String, OutOfMemory>
    requires { IsValid setup.now state.now }
    ensures { IfOk result (λ text. string_bytes text ≡ text_of_show setup.now state.now) }
{
    let mut text = String::new(alloc);
    push_show(setup, state, &mut text)?;
    Ok(text)
}
