//! What the template of a row says.

ghost use Rattle.std.specs.Prelude.{◌≡◌, slice_get, option_copied};
ghost use Rattle.sim_plans.specs.Common.{arms_of as arms_by, resist_of as resist_by, speed_of as speed_by};

use sim_base::{Arms, Fixed, Resist, Row, Setup, Template};

/// The template of this number, if it is known.
pub fn template_at(setup: &Setup, number: u16) -> Option<&Template>
    ensures { option_copied result ≡ slice_get setup.now.templates number }
{
    setup.templates.as_slice().get(usize::from(number))
}

/// The arms of a row that can attack.
pub fn arms_of(setup: &Setup, row: &Row) -> Option<Arms>
    ensures { result ≡ arms_by setup.now row.now }
{
    match template_at(setup, row.template) {
        Some(template) => template.arms,
        None => None,
    }
}

/// The speed of a row that can move, for a second.
pub fn speed_of(setup: &Setup, row: &Row) -> Option<Fixed>
    ensures { result ≡ speed_by setup.now row.now }
{
    match template_at(setup, row.template) {
        Some(template) => template.speed,
        None => None,
    }
}

/// The levels of resistance of a row, 0 where its template is not known.
pub fn resist_of(setup: &Setup, row: &Row) -> Resist
    ensures { result ≡ resist_by setup.now row.now }
{
    match template_at(setup, row.template) {
        Some(template) => template.resist,
        None => Resist {
            hack: 0,
            pierce: 0,
            crush: 0,
        },
    }
}
