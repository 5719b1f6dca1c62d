//! The templates of a match, with their parts.

ghost use Rattle.std.specs.Prelude.{◌≡◌, IfOk, string_bytes};
ghost use Rattle.sim_top.specs.{Commands.IsAnswerTo, Commands.shelved, Common.parts_text as text_of_parts, Words.to_parts};

use super::{Answer, shown};
use crate::inputs::read_match;
use crate::stop::Stop;
use sim_base::{Global, OutOfMemory, Setup};
use sim_report::push_parts;
use sim_store::Shelf;

/// Tells the parts of the templates of the match of a file.
pub fn parts<'w, S: Shelf>(
    alloc: Global,
    shelf: &mut S,
    game: &'w str,
) -> Result<Answer<'w>, Stop<'w>>
    ensures { IsAnswerTo (to_parts game.now) result (shelved (S.held shelf.old) (S.counts shelf.old)) (shelved (S.held shelf.new) (S.counts shelf.new)) }
{
    let setup = read_match(alloc, shelf, game)?;
    shown(parts_text(alloc, &setup))
}

fn parts_text(alloc: Global, setup: &Setup) -> Result<String, OutOfMemory>
    ensures { IfOk result (λ text. string_bytes text ≡ text_of_parts setup.now.templates) }
{
    let mut text = String::new(alloc);
    push_parts(setup.templates.as_slice(), &mut text)?;
    Ok(text)
}
