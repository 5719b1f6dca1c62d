//! How far the entities of a template see.

ghost use Rattle.std.specs.Prelude.{◌≡◌, ◌≤◌, map, IfOk, All};
ghost use Rattle.sim_vision.specs.Vision.{HasReach, reach_of as reach_of_template};

use crate::disc::Disc;
use sim_base::{Global, OutOfMemory, Template};

// The whole metres of the vision of a template, rounded down, or 0 where it has no attack.
fn reach_of(template: &Template) -> u16
    requires { HasReach template.now }
    ensures reach { result ≡ reach_of_template template.now }
    ensures small { result ≤ 256 }
{
    match &template.arms {
        None => 0,
        Some(arms) => (arms.vision.raw() / 65536) as u16,
    }
}

/// A disc for each template.
pub fn discs_of(alloc: Global, templates: &[Template]) -> Result<Vec<Disc>, OutOfMemory>
    requires { All HasReach templates.now }
    ensures { IfOk result (λ discs. discs.items ≡ map reach_of_template templates.now) }
{
    let mut discs = Vec::new(alloc);
    for template in templates {
        discs.push(Disc::new(alloc, reach_of(template))?)?;
    }
    Ok(discs)
}
