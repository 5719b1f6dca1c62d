//! Sums and products of values, which are read as numbers and printed again.

ghost use Rattle.{sim_base.specs.NumberText.text_of, sim_merge.specs.Overlay.{function_of, IfBadOp, number_by, text_by, value_by}};
ghost use Rattle.std.specs.{Option.option_copied, Prelude.{IfOk, MatchResult, None, Some, ◌≡◌}};

use crate::fault::OverlayFault;
use sim_base::{Fixed, Global, OutOfMemory};
use sim_tree::Text;

/// What is made of two numbers.
#[derive(Clone, Copy, Debug, PartialEq, Eq)]
pub enum Operation {
    Sum,
    Product,
}

/// The result of an operation on two values, where both are there.
pub fn operated_value<'a>(
    alloc: Global,
    operation: Operation,
    lower: Option<&Text<'_>>,
    upper: Option<&Text<'_>>,
) -> Result<Text<'a>, OverlayFault>
    ensures bad { value_by (function_of operation) (option_copied lower.entry) (option_copied upper.entry) ≡ None → result ≡ Err OverlayFault.BadOp }
    ensures value { MatchResult result
        (λ text. value_by (function_of operation) (option_copied lower.entry) (option_copied upper.entry) ≡ Some text)
        (λ fault. IfBadOp fault (value_by (function_of operation) (option_copied lower.entry) (option_copied upper.entry) ≡ None)) }
{
    match lower {
        None => Err(OverlayFault::BadOp),
        Some(lower) => match upper {
            None => Err(OverlayFault::BadOp),
            Some(upper) => operate(alloc, operation, lower.as_str(), upper.as_str()),
        },
    }
}

// The printed result of an operation on the numbers that two texts spell.
fn operate<'a>(
    alloc: Global,
    operation: Operation,
    lower: &str,
    upper: &str,
) -> Result<Text<'a>, OverlayFault>
    ensures bad { text_by (function_of operation) lower.now upper.now ≡ None → result ≡ Err OverlayFault.BadOp }
    ensures value { MatchResult result
        (λ text. text_by (function_of operation) lower.now upper.now ≡ Some text)
        (λ fault. IfBadOp fault (text_by (function_of operation) lower.now upper.now ≡ None)) }
{
    match number_of(operation, lower, upper) {
        Some(number) => Ok(printed(alloc, number)?),
        None => Err(OverlayFault::BadOp),
    }
}

// The result, where both texts spell a number and it is in range.
fn number_of(operation: Operation, lower: &str, upper: &str) -> Option<Fixed>
    ensures { result ≡ number_by (function_of operation) lower.now upper.now }
{
    let lower = Fixed::read_text(lower)?;
    let upper = Fixed::read_text(upper)?;
    match operation {
        Operation::Sum => lower.checked_add(upper),
        Operation::Product => lower.checked_mul(upper),
    }
}

fn printed<'a>(alloc: Global, number: Fixed) -> Result<Text<'a>, OutOfMemory>
    ensures { IfOk result (λ text. text ≡ text_of number) }
{
    let mut text = String::new(alloc);
    number.push_text(&mut text)?;
    Ok(Text::of_string(text))
}
