//! Lists of words, which stand in a value with spaces between them, and what another list adds and takes away.
//!
//! The upper words are read from the back, beside a set of the words that are taken away further on. Those that stay are
//! put into another set, and the lower words are taken out of it, so that a short list over a long one costs one walk. So
//! each word is looked up in a set and never in a list, and n words take about n steps times their logarithm. The sets are
//! ordered trees: whoever writes a match picks its words, and could pick ones that a hash with a known seed gives one place.

ghost use Rattle.sim_merge.specs.Overlay.{AreChanges, including, is_removal, TellsLacking, TellsWords, with_added as with_added_word};
ghost use Rattle.{sim_merge.specs.Overlay.words_over as words_over_words, sim_tree.specs.Tokens.tokens_in as words_of_value, std.specs.BTreeSet.contains_text};
ghost use Rattle.std.specs.{List.{join_with_byte, list_any}, Option.option_copied, Prelude.{drop, false, filter, fold, IfOk, if◌then◌else◌, List, MatchOption}};
ghost use Rattle.std.specs.{Prelude.{None, not, OnOk, reverse, Some, string_bytes, true, ℕ, [], ◌&&◌, ◌++◌, ◌||◌, ◌∷◌, ◌≡◌}, Str.bytes_eq};

use sim_base::{Global, OutOfMemory};
use sim_tree::{Names, Text, tokens_in};
use std::collections::BTreeSet;

// What the words of an upper list do to a lower one.
#[derive(Drop)]
struct Changes<'a> {
    // The words that it adds and does not take away further on, the last one first.
    added: Names<'a>,
    // The words that it takes away.
    removed: BTreeSet<String>,
}

/// The words of the lower value, after each word of the upper value added or took away words.
pub fn words_over<'a>(
    alloc: Global,
    upper: Option<&Text<'_>>,
    lower: Option<&Text<'_>>,
) -> Result<Text<'a>, OutOfMemory>
    ensures { IfOk result (λ text. text ≡ words_over_words (option_copied upper.entry) (option_copied lower.entry)) }
{
    let changes = changes_of(alloc, words_in(alloc, upper)?)?;
    let found = leaving_out(words_in(alloc, lower)?, &changes.removed);
    let found = with_added(alloc, found, changes.added)?;
    Ok(joined(alloc, found.as_slice())?)
}

// The words of a value, and none where there is no value.
fn words_in<'t>(alloc: Global, value: Option<&'t Text<'_>>) -> Result<Names<'t>, OutOfMemory>
    ensures { IfOk result (λ words. words ≡ words_of_value (option_copied value.entry)) }
{
    match value {
        Some(text) => tokens_in(alloc, text.as_str()),
        None => Ok(Names::new(alloc)),
    }
}

fn changes_of<'t>(alloc: Global, upper: Names<'t>) -> Result<Changes<'t>, OutOfMemory>
    ensures { IfOk result (λ changes. AreChanges changes.added (contains_text changes.removed) upper.entry) }
{
    let mut words = upper.into_items();
    let mut changes = Changes {
        added: Names::new(alloc),
        removed: BTreeSet::new(alloc),
    };
    while let Some(word) = words.pop() {
        put_before(alloc, &mut changes, word)?;
    }
    Ok(changes)
}

// Takes in the word that stands before those that were taken in.
fn put_before<'t>(
    alloc: Global,
    changes: &mut Changes<'t>,
    word: Text<'t>,
) -> Result<(), OutOfMemory>
    ensures { OnOk result ((later : List (List ℕ)) →
        AreChanges changes.old.added (contains_text changes.old.removed) later →
        AreChanges changes.new.added (contains_text changes.new.removed) (word.entry ∷ later)) }
{
    match removed_by(word.as_str()) {
        Some(other) => add_word(alloc, &mut changes.removed, other)?,
        None => {
            if !changes.removed.contains(word.as_str()) {
                changes.added.push(word)?;
            }
        }
    }
    Ok(())
}

// The word that a minus sign and the word take away.
fn removed_by(word: &str) -> Option<&str>
    ensures { MatchOption result (is_removal word.now ≡ false) (λ other. (is_removal word.now ≡ true) × (other.now ≡ drop 1 word.now)) }
{
    match word.strip_prefix("-") {
        Some(other) => if other.is_empty() { None } else { Some(other) },
        None => None,
    }
}

fn leaving_out<'t>(found: Names<'t>, removed: &BTreeSet<String>) -> Names<'t>
    ensures { result ≡ filter (λ word. not (contains_text removed.now word)) found.entry }
{
    let mut words = found.into_items();
    words.retain(|word| !removed.contains(word.as_str()));
    Names::from_items(words)
}

// A list with each word that it lacks, from the last one to the first.
fn with_added<'t>(
    alloc: Global,
    lower: Names<'t>,
    added: Names<'t>,
) -> Result<Names<'t>, OutOfMemory>
    ensures { IfOk result (λ words. words ≡ fold with_added_word lower.entry (reverse added.entry)) }
{
    let mut lacking = set_of(alloc, added.as_slice())?;
    take_words(&mut lacking, lower.as_slice());
    let mut found = lower;
    let mut words = added.into_items();
    while let Some(word) = words.pop() {
        include(&mut found, &mut lacking, word)?;
    }
    Ok(found)
}

// Adds a word at the end of a list that lacks it, where the set has what the list lacks of this word and those to come.
fn include<'t>(
    found: &mut Names<'t>,
    lacking: &mut BTreeSet<String>,
    word: Text<'t>,
) -> Result<(), OutOfMemory>
    ensures found { OnOk result ((more : List (List ℕ)) → TellsLacking (contains_text lacking.old) (more ++ word.entry ∷ []) found.old
        → found.new ≡ including word.entry found.old) }
    ensures lacking { OnOk result ((more : List (List ℕ)) → TellsLacking (contains_text lacking.old) (more ++ word.entry ∷ []) found.old
        → TellsLacking (contains_text lacking.new) more found.new) }
{
    if take_word(lacking, word.as_str()) {
        found.push(word)?;
    }
    Ok(())
}

// Takes these words out of a set.
fn take_words(set: &mut BTreeSet<String>, words: &[Text<'_>])
    ensures { (other : List ℕ) → contains_text set.new other ≡ (contains_text set.old other && not (list_any (bytes_eq other) words.now)) }
{
    let mut rest = words;
    while let [word, more @ ..] = rest {
        let _was_there = take_word(set, word.as_str());
        rest = more;
    }
}

// Takes a word out of a set, and answers whether it was there.
fn take_word(set: &mut BTreeSet<String>, word: &str) -> bool
    ensures found { result ≡ contains_text set.old word.now }
    ensures left { (other : List ℕ) → contains_text set.new other ≡ (contains_text set.old other && not (bytes_eq other word.now)) }
{
    set.remove(word)
}

fn set_of(alloc: Global, words: &[Text<'_>]) -> Result<BTreeSet<String>, OutOfMemory>
    ensures { IfOk result (λ set. TellsWords (contains_text set) words.now) }
{
    let mut set = BTreeSet::new(alloc);
    for word in words {
        add_word(alloc, &mut set, word.as_str())?;
    }
    Ok(set)
}

fn add_word(alloc: Global, set: &mut BTreeSet<String>, word: &str) -> Result<(), OutOfMemory>
    ensures { OnOk result ((other : List ℕ) → contains_text set.new other ≡ (bytes_eq other word.now || contains_text set.old other)) }
{
    set.insert(String::from_str(alloc, word)?)?;
    Ok(())
}

// The words with single spaces between them.
fn joined<'a>(alloc: Global, words: &[Text<'_>]) -> Result<Text<'a>, OutOfMemory>
    ensures { IfOk result (λ text. text ≡ join_with_byte 0x20 words.now) }
{
    let mut text = String::new(alloc);
    for (place, word) in words.iter().enumerate() {
        push_word(&mut text, place == 0, word.as_str())?;
    }
    Ok(Text::of_string(text))
}

// Adds a word, with a space before it where it is not the first one.
fn push_word(text: &mut String, is_first: bool, word: &str) -> Result<(), OutOfMemory>
    ensures { OnOk result (string_bytes text.new ≡ string_bytes text.old ++ (if is_first then word.now else 0x20 ∷ word.now)) }
{
    if !is_first {
        text.push_str(" ")?;
    }
    text.push_str(word)?;
    Ok(())
}
