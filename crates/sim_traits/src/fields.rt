//! The children of a part: their texts, and the numbers that these spell. A child that may be left out has a text that
//! stands for it.

ghost use Rattle.std.specs.{List.list_any, Prelude.IfSome, Prelude.[], Prelude.is_none, Prelude.option_map, Prelude.◌≡◌};
ghost use Rattle.sim_traits.specs.Values.{lacks as lacks_text, raw_in as raw_in_text, text_at as text_at_node, text_or as text_or_else};
ghost use Rattle.{sim_base.specs.Limits.IsFrom, sim_base.specs.Limits.IsRawFrom, sim_json.specs.Keys.texts_of};
ghost use Rattle.{sim_traits.specs.Values.whole_in as whole_in_text, sim_tree.specs.Trees.node_of, sim_tree.specs.Trees.value_of};

use sim_base::Fixed;
use sim_tree::Tree;

/// The text of a child, if it is there and has one.
pub fn text_at<'t>(part: &'t Tree<'_>, name: &str) -> Option<&'t str>
    ensures { option_map (λ text. text.now) result ≡ text_at_node name.now (node_of part.now) }
{
    text_of(part.child(name)?)
}

/// The text of a child, or the other one where the child is not there.
pub fn text_or<'t>(part: &'t Tree<'_>, name: &str, absent: &'t str) -> Option<&'t str>
    ensures { option_map (λ text. text.now) result ≡ text_or_else absent.now name.now (node_of part.now) }
{
    match part.child(name) {
        Some(child) => text_of(child),
        None => Some(absent),
    }
}

fn text_of<'t>(tree: &'t Tree<'_>) -> Option<&'t str>
    ensures { option_map (λ text. text.now) result ≡ value_of (node_of tree.now) }
{
    match &tree.value {
        Some(text) => Some(text.as_str()),
        None => None,
    }
}

/// Whether a child that is needed is not there, or one of the others is there without a text.
pub fn lacks(part: &Tree<'_>, needed: &[&str], optional: &[&str]) -> bool
    ensures { result ≡ lacks_text (texts_of needed.now) (texts_of optional.now) (node_of part.now) }
{
    lacks_needed(part, needed) || lacks_optional(part, optional)
}

fn lacks_needed(part: &Tree<'_>, names: &[&str]) -> bool
    ensures { result ≡ list_any (λ name. is_none (text_at_node name (node_of part.now))) (texts_of names.now) }
{
    let mut rest = names;
    while let [name, more @ ..] = rest {
        if text_at(part, name).is_none() {
            return true;
        }
        rest = more;
    }
    false
}

fn lacks_optional(part: &Tree<'_>, names: &[&str]) -> bool
    ensures { result ≡ list_any (λ name. is_none (text_or_else [] name (node_of part.now))) (texts_of names.now) }
{
    let mut rest = names;
    while let [name, more @ ..] = rest {
        if text_or(part, name, "").is_none() {
            return true;
        }
        rest = more;
    }
    false
}

/// The number that a text spells, where it has from `low` to `high` units of 1/65536.
pub fn raw_in(text: &str, low: u32, high: u32) -> Option<Fixed>
    ensures value { result ≡ raw_in_text low high text.now }
    ensures within { IfSome result (IsRawFrom low high) }
{
    let number = Fixed::read_text(text)?;
    let raw = u32::try_from(number.raw()).ok()?;
    if low <= raw && raw <= high {
        Some(number)
    } else {
        None
    }
}

/// The whole number that a text spells, where it is one from `low` to `high`.
pub fn whole_in(text: &str, low: u16, high: u16) -> Option<u16>
    ensures value { result ≡ whole_in_text low high text.now }
    ensures within { IfSome result (IsFrom low high) }
{
    let raw = u32::try_from(Fixed::read_text(text)?.raw()).ok()?;
    let whole = (raw / 65_536) as u16;
    if raw % 65_536 == 0 && low <= whole && whole <= high {
        Some(whole)
    } else {
        None
    }
}
