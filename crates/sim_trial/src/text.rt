//! The whole file of a trial, in one line without spaces.

ghost use Rattle.std.specs.Prelude.{◌≡◌, ◌++◌, IfOk, OnOk, string_bytes};
ghost use Rattle.sim_trial.specs.Trial.{ground_text, IsTrial, rules_text, template_text, text_of_trial};

use crate::soldiers::push_soldiers;
use crate::walks::push_commands;
use sim_base::{Global, OutOfMemory};

const GROUND: &str =
    r#"{"size":[128,128],"closed":[[60,20,67,51],[60,76,67,107]],"players":[[2],[1]],"cap":1000,"delay":2,"turns":"#;

const TEMPLATE: &str =
    r#"{"@name":"soldier","Health":{"Max":100},"Resist":{"Hack":2,"Pierce":1},"Motion":{"Speed":9},"Attack":{"Hack":"4.5","Pierce":2,"Range":3,"Vision":20,"Repeat":4,"Accuracy":90}}"#;

/// The match file of the trial of this seed with so many soldiers, of whom the players have every other one, and so many
/// turns.
pub fn trial_text(alloc: Global, seed: u64, units: u32, turns: u32) -> Result<Vec<u8>, OutOfMemory>
    requires { IsTrial seed units turns }
    ensures { IfOk result (λ text. text.items ≡ text_of_trial seed units turns) }
{
    let mut text = String::new(alloc);
    push_rules(seed, turns, &mut text)?;
    text.push_str(",\"entities\":[")?;
    push_soldiers(seed, units, &mut text)?;
    text.push_str("],\"commands\":[")?;
    push_commands(units, turns, &mut text)?;
    text.push_str("]}")?;
    Ok(text.into_bytes())
}

// The ground, the rules and the templates.
fn push_rules(seed: u64, turns: u32, text: &mut String) -> Result<(), OutOfMemory>
    ensures { OnOk result (string_bytes text.new ≡ string_bytes text.old ++ rules_text seed turns) }
{
    push_ground(text)?;
    write!(text, "{turns},\"seed\":{seed},\"templates\":[")?;
    push_template(text)?;
    text.push_str("]")?;
    Ok(())
}

#[tactic(auto, unfolding(crate::specs::Trial::ground_text))]
fn push_ground(text: &mut String) -> Result<(), OutOfMemory>
    ensures { OnOk result (string_bytes text.new ≡ string_bytes text.old ++ ground_text) }
{
    text.push_str(GROUND)?;
    Ok(())
}

#[tactic(auto, unfolding(crate::specs::Trial::template_text))]
fn push_template(text: &mut String) -> Result<(), OutOfMemory>
    ensures { OnOk result (string_bytes text.new ≡ string_bytes text.old ++ template_text) }
{
    text.push_str(TEMPLATE)?;
    Ok(())
}
