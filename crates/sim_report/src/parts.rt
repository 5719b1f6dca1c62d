//! The templates of a match as text: a line for each, with the parts that it has.

ghost use Rattle.std.specs.Prelude.{◌++◌, codes};
ghost use Rattle.sim_report.specs.Appending.{Appends, AppendsInParts};
ghost use Rattle.sim_report.specs.{Parts.reach_text, Parts.resist_text, Parts.speed_text, Parts.template_line, Parts.train_text, Show.health_text};
ghost use Rattle.sim_report.specs.Parts.{arms_text, attack_text, body_text, deeds_text, harm_text, heading_text, obstruct_text, pace_text, parts_text};

use crate::down::{append_ids, append_number};
use crate::show::write_fixed;
use sim_base::{Arms, Base, Fixed, Harm, Ids, OutOfMemory, Resist, Template};

/// Appends a line for each of these templates, which are numbered by their places, or leaves the text as it was.
pub fn push_parts(templates: &[Template], out: &mut String) -> Result<(), OutOfMemory>
    ensures { Appends result out.old out.new (parts_text templates.now) }
{
    let length = out.len();
    match append_templates(templates, out) {
        Ok(()) => Ok(()),
        Err(stop) => {
            out.truncate(length);
            Err(stop)
        }
    }
}

// After an error some of the lines may stand behind the old text; or a part of one, here and below.
fn append_templates(templates: &[Template], out: &mut String) -> Result<(), OutOfMemory>
    ensures { AppendsInParts result out.old out.new (parts_text templates.now) }
{
    for (number, template) in templates.iter().enumerate() {
        append_template(number, template, out)?;
    }
    Ok(())
}

fn append_template(number: usize, template: &Template, out: &mut String) -> Result<(), OutOfMemory>
    ensures { AppendsInParts result out.old out.new (template_line number template.now) }
{
    append_heading(number, template, out)?;
    append_body(template, out)?;
    append_deeds(template, out)?;
    out.push_str("\n")?;
    Ok(())
}

// Its number and its name.
fn append_heading(number: usize, template: &Template, out: &mut String) -> Result<(), OutOfMemory>
    ensures { AppendsInParts result out.old out.new (heading_text number template.now) }
{
    append_number("template ", number as u64, out)?;
    out.push_str(" ")?;
    out.push_str(template.name.text())?;
    Ok(())
}

// What it is.
fn append_body(template: &Template, out: &mut String) -> Result<(), OutOfMemory>
    ensures { AppendsInParts result out.old out.new (body_text template.now) }
{
    append_health(template.health, out)?;
    append_resist(template.resist, out)?;
    append_speed(template.speed, out)?;
    append_obstruct(template.obstruct, out)
}

// What it does.
fn append_deeds(template: &Template, out: &mut String) -> Result<(), OutOfMemory>
    ensures { AppendsInParts result out.old out.new (deeds_text template.now) }
{
    append_attack(&template.arms, out)?;
    append_train(&template.train, out)
}

fn append_health(health: Option<Fixed>, out: &mut String) -> Result<(), OutOfMemory>
    ensures { AppendsInParts result out.old out.new (health_text health) }
{
    match health {
        None => Ok(()),
        Some(most) => write_fixed(" health ", most, out),
    }
}

fn append_resist(resist: Resist, out: &mut String) -> Result<(), OutOfMemory>
    ensures { AppendsInParts result out.old out.new (resist_text resist) }
{
    append_number(" resist ", u64::from(resist.hack), out)?;
    append_number(" ", u64::from(resist.pierce), out)?;
    append_number(" ", u64::from(resist.crush), out)
}

fn append_speed(speed: Option<Fixed>, out: &mut String) -> Result<(), OutOfMemory>
    ensures { AppendsInParts result out.old out.new (speed_text speed) }
{
    match speed {
        None => Ok(()),
        Some(speed) => write_fixed(" speed ", speed, out),
    }
}

fn append_obstruct(obstruct: Option<Base>, out: &mut String) -> Result<(), OutOfMemory>
    ensures { AppendsInParts result out.old out.new (obstruct_text obstruct) }
{
    match obstruct {
        None => Ok(()),
        Some(base) => {
            append_number(" obstruct ", u64::from(base.width), out)?;
            append_number(" ", u64::from(base.depth), out)
        }
    }
}

fn append_attack(arms: &Option<Arms>, out: &mut String) -> Result<(), OutOfMemory>
    ensures { AppendsInParts result out.old out.new (attack_text arms.now) }
{
    match arms {
        None => Ok(()),
        Some(arms) => append_arms(arms, out),
    }
}

fn append_arms(arms: &Arms, out: &mut String) -> Result<(), OutOfMemory>
    ensures { AppendsInParts result out.old out.new (arms_text arms.now) }
{
    append_harm(arms.harm, out)?;
    append_reach(arms, out)?;
    append_pace(arms, out)
}

fn append_reach(arms: &Arms, out: &mut String) -> Result<(), OutOfMemory>
    ensures { AppendsInParts result out.old out.new (reach_text arms.now) }
{
    write_fixed(" range ", arms.range, out)?;
    write_fixed(" vision ", arms.vision, out)
}

fn append_pace(arms: &Arms, out: &mut String) -> Result<(), OutOfMemory>
    ensures { AppendsInParts result out.old out.new (pace_text arms.now) }
{
    append_number(" repeat ", u64::from(arms.repeat), out)?;
    append_number(" accuracy ", u64::from(arms.accuracy), out)
}

// The word for an attack and its damage.
fn append_harm(harm: Harm, out: &mut String) -> Result<(), OutOfMemory>
    ensures { AppendsInParts result out.old out.new (codes " attack " ++ harm_text harm) }
{
    write_fixed(" attack ", harm.hack, out)?;
    write_fixed(" ", harm.pierce, out)?;
    write_fixed(" ", harm.crush, out)
}

fn append_train(train: &Option<Ids>, out: &mut String) -> Result<(), OutOfMemory>
    ensures { AppendsInParts result out.old out.new (train_text train.now) }
{
    match train {
        None => Ok(()),
        Some(numbers) => append_ids(" train ", numbers, out),
    }
}
