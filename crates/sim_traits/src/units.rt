//! The templates that a template trains, which is the one part that takes memory. The walk over the list ends at the
//! first word that is no name, and at the 65th that is one.

ghost use Rattle.sim_traits.specs.{Meets.Meets, Values.{is_admitted, number_in, part_of, train_in as train_in_node, train_part, units_in as units_in_text}};
ghost use Rattle.sim_tree.specs.{Tokens.is_word, Trees.node_of};
ghost use Rattle.std.specs.{List.filter_map, Prelude.{All, false, filter, IfOk, IfSome, length, true, [], ◌++◌, ◌<◌, ◌∷◌, ◌≡◌, ◌≤◌}};

use crate::fault::TraitFault;
use crate::fields::{lacks, text_at};
use sim_base::{Global, Ids, OutOfMemory};
use sim_merge::Library;
use sim_tree::Tree;

// A template trains so many others at most.
const MOST: usize = 64;

/// The numbers of the templates that it trains.
pub fn train_of(
    alloc: Global,
    root: &Tree<'_>,
    names: &Library<'_>,
) -> Result<Option<Ids>, TraitFault>
    ensures missing { part_of train_part (train_in_node names.now.names) (node_of root.now) ≡ Err (TraitFault.Missing 6) → result ≡ Err (TraitFault.Missing 6) }
    ensures value { Meets result (part_of train_part (train_in_node names.now.names) (node_of root.now)) }
    ensures within { IfOk result (λ found. IfSome found (λ numbers. (length numbers ≤ 64) × All (λ n. n < length names.now.names) numbers)) }
{
    let Some(part) = root.child("Train") else {
        return Ok(None);
    };
    if lacks(part, &["Units"], &[]) {
        return Err(TraitFault::Missing { part: 6 });
    }
    match train_in(alloc, part, names)? {
        Some(numbers) => Ok(Some(numbers)),
        None => Err(TraitFault::OutOfRange { part: 6 }),
    }
}

fn train_in(alloc: Global, part: &Tree<'_>, names: &Library<'_>) -> Result<Option<Ids>, OutOfMemory>
    ensures value { IfOk result (λ numbers. numbers ≡ train_in_node names.now.names (node_of part.now)) }
    ensures within { IfOk result (λ found. IfSome found (λ numbers. (length numbers ≤ 64) × All (λ n. n < length names.now.names) numbers)) }
{
    match text_at(part, "Units") {
        Some(text) => units_in(alloc, text, names),
        None => Ok(None),
    }
}

fn units_in(alloc: Global, text: &str, names: &Library<'_>) -> Result<Option<Ids>, OutOfMemory>
    ensures value { IfOk result (λ numbers. numbers ≡ units_in_text names.now.names text.now) }
    ensures within { IfOk result (λ found. IfSome found (λ numbers. (length numbers ≤ 64) × All (λ n. n < length names.now.names) numbers)) }
{
    let mut numbers = Ids::new(alloc);
    for part in text.split(' ') {
        if !admit(&mut numbers, part, names)? {
            return Ok(None);
        }
    }
    Ok(Some(numbers))
}

// Puts the number of a word behind the others, if it is a name and there is room. A part without bytes is no word.
fn admit(numbers: &mut Ids, part: &str, names: &Library<'_>) -> Result<bool, OutOfMemory>
    ensures admitted { IfOk result (λ admitted. admitted ≡ is_admitted names.now.names (length numbers.old) part.now) }
    ensures refused { is_admitted names.now.names (length numbers.old) part.now ≡ false → result ≡ Ok false }
    ensures numbers { result ≡ Ok true → numbers.new ≡ numbers.old ++ filter_map (number_in names.now.names) (filter is_word (part.now ∷ [])) }
{
    if part.is_empty() {
        return Ok(true);
    }
    let Some(number) = names.number_of(part) else {
        return Ok(false);
    };
    if numbers.as_slice().len() >= MOST {
        return Ok(false);
    }
    numbers.push(u32::from(number))?;
    Ok(true)
}
