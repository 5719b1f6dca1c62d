//! What is answered to a line: the whole text is made before any of it is told.

ghost use Rattle.std.specs.Prelude.{[], IfOk, length, List, OnOk, string_bytes, ℕ, ◌++◌, ◌+◌, ◌<◌, ◌^◌, ◌∷◌, ◌≡◌, ◌≤◌};
ghost use Rattle.sim_live.specs.{Answering.Follows, Live.IsLine, Live.answer as answer_of, Live.answer_to, Live.next, Live.steps_with};
ghost use Rattle.sim_session.specs.{Going.seen_in, Going.setup_in, Laws.lines_of, Standing.StandsFor};
ghost use Rattle.{sim_base.specs.declared.step.Step.Step as AnyStep, sim_lists.specs.StepLists.IsStep, sim_live.specs.Answering.Counts};
ghost use Rattle.{sim_plain_session.specs.Sessions.events as events_in, sim_plain_session.specs.Sessions.session as session_over, sim_session.specs.Going.IsOn};

use crate::line::{Line, line_of};
use crate::looking::push_look;
use sim_base::{Global, OutOfMemory, Step};
use sim_session::{Session, push_events};
use sim_system::System;
use sim_talk::{push_ok, push_refused};

/// What is answered to a line after so many steps, and how many there are behind it.
pub fn answer(
    alloc: Global,
    session: &mut Session<'_>,
    made: u64,
    line: &[u8],
) -> Result<(String, u64), OutOfMemory>
    requires on { IsOn ⟦<dyn System as System>⟧ session.old }
    requires count { made + 1 < 2 ^ 64 }
    ensures text { IfOk result (λ told. (clients : ℕ) (steps : List AnyStep) → clients ≤ (setup_in session.old).players → made ≡ length steps
        → StandsFor (setup_in session.old) (seen_in session.old) (session_over (setup_in session.old) clients steps)
        → string_bytes told.0 ≡ answer_of (setup_in session.old) clients steps line.now) }
    ensures count { IfOk result (λ told. Counts made (λ steps. next (setup_in session.old) steps line.now) told.1) }
    ensures follows { Follows ⟦<dyn System as System>⟧ (λ steps. next (setup_in session.old) steps line.now) result session.old session.new }
{
    let asked = line_of(alloc, session.setup().players, line)?;
    let mut text = String::new(alloc);
    let count = push_answer(session, made, &asked, &mut text)?;
    Ok((text, count))
}

// Appends what is answered to what a line asks for.
fn push_answer(
    session: &mut Session<'_>,
    made: u64,
    asked: &Line,
    out: &mut String,
) -> Result<u64, OutOfMemory>
    requires on { IsOn ⟦<dyn System as System>⟧ session.old }
    requires line { IsLine (setup_in session.old).players asked.now }
    requires count { made + 1 < 2 ^ 64 }
    ensures text { OnOk result ((clients : ℕ) (steps : List AnyStep) → clients ≤ (setup_in session.old).players → made ≡ length steps
        → StandsFor (setup_in session.old) (seen_in session.old) (session_over (setup_in session.old) clients steps)
        → string_bytes out.new ≡ string_bytes out.old ++ answer_to (setup_in session.old) clients steps asked.now) }
    ensures count { IfOk result (Counts made (λ steps. steps_with steps asked.now)) }
    ensures follows { Follows ⟦<dyn System as System>⟧ (λ steps. steps_with steps asked.now) result session.old session.new }
{
    match asked {
        Line::Step { step } => {
            push_step(session, step, out)?;
            push_ok(made + 1, out)?;
            Ok(made + 1)
        }
        Line::Look { look } => {
            push_look(session, *look, out)?;
            push_ok(made, out)?;
            Ok(made)
        }
        Line::Other => {
            push_refused(made + 1, out)?;
            Ok(made)
        }
    }
}

// Makes a step, and appends the lines of its events.
fn push_step(session: &mut Session<'_>, step: &Step, out: &mut String) -> Result<(), OutOfMemory>
    requires on { IsOn ⟦<dyn System as System>⟧ session.old }
    requires step { IsStep (setup_in session.old).players step.now }
    ensures text { OnOk result ((clients : ℕ) (steps : List AnyStep) → clients ≤ (setup_in session.old).players
        → StandsFor (setup_in session.old) (seen_in session.old) (session_over (setup_in session.old) clients steps)
        → string_bytes out.new ≡ string_bytes out.old ++ lines_of (events_in (setup_in session.old) (session_over (setup_in session.old) clients steps)
        step.now)) }
    ensures follows { Follows ⟦<dyn System as System>⟧ (λ steps. steps ++ step.now ∷ []) result session.old session.new }
{
    let events = session.step(step)?;
    push_events(&events, out)
}
