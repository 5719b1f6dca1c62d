//! A run over bytes.

ghost use Rattle.{sim_edge.specs.Run.Ran, sim_packed.specs.{declared.running.Unrun.TheVariants.OutOfMemory as no_memory, Files.{IsRun, IsRunOn, IsUnrun}}};
ghost use Rattle.{sim_packed.specs.Files.under, sim_store.specs.{MemShelf.{counts_on, files_on}, Shelf.no_counts}, sim_top.specs.{Reads.scene, Words.words_of}};
ghost use Rattle.std.specs.Prelude.{IfErr, IfOk, option_map, ◌≡◌};

use crate::files::shelf_from;
use crate::storing::out_of;
use crate::text::Text;
use crate::words::words_from;
use sim_base::{Global, OutOfMemory};
use sim_census::Census;
use sim_edge::{add_rig, run_with};
use sim_ground::Ground;
use sim_range::Range;
use sim_store::{MemShelf, Shelf, Sink};
use sim_system::{Rig, System};
use sim_top::Status;
use sim_watch::Watch;

/// How a run ended, what it printed, and what is then held under the name of OUT.
#[derive(Drop)]
pub struct Printed {
    pub status: Status,
    pub text: Vec<u8>,
    pub out: Vec<u8>,
}

/// Why there is no run.
#[derive(Clone, Copy, Debug, PartialEq, Eq)]
pub enum Unrun {
    /// The bytes spell no files.
    Files,
    /// Memory was refused, before the run or in it.
    OutOfMemory,
}

impl From<OutOfMemory> for Unrun {
    ghost from_gives = { λ _ unrun. unrun ≡ no_memory };

    fn from(_: OutOfMemory) -> Unrun {
        Unrun::OutOfMemory
    }
}

/// Runs the words that bytes spell over the files that others spell.
pub fn run(alloc: Global, words: &[u8], files: &[u8]) -> Result<Printed, Unrun>
    ensures is { IfOk result (IsRun words.now files.now) }
    ensures refused { IfErr result (IsUnrun files.now) }
{
    let Some(mut shelf) = shelf_from(alloc, files)? else {
        return Err(Unrun::Files);
    };
    let words = words_from(alloc, words)?;
    Ok(run_on(alloc, &words, &mut shelf)?)
}

// Runs the words over the files of a shelf.
fn run_on(alloc: Global, words: &[String], shelf: &mut MemShelf) -> Result<Printed, OutOfMemory>
    requires { counts_on shelf.old ≡ no_counts }
    ensures { IfOk result (IsRunOn (words_of words.now) (files_on shelf.old)) }
{
    let mut text = Text::new(alloc);
    let status = run_words(alloc, words, shelf, &mut text)?;
    if status == Status::OutOfMemory || text.faults > 0 {
        return Err(OutOfMemory);
    }
    let out = bytes_under(alloc, out_of(words), shelf)?;
    Ok(Printed {
        status,
        text: text.told,
        out,
    })
}

// What the shelf holds under the name, if there is one.
fn bytes_under(alloc: Global, name: Option<&str>, shelf: &MemShelf) -> Result<Vec<u8>, OutOfMemory>
    ensures { IfOk result (λ bytes. bytes.items ≡ under (option_map (λ name. name.now) name.entry) (files_on shelf.now)) }
{
    let Some(name) = name else {
        return Ok(Vec::new(alloc));
    };
    match shelf.held(name) {
        Some(bytes) => Ok(bytes.to_vec(alloc)?),
        None => Ok(Vec::new(alloc)),
    }
}

// Runs the words with eight rigs of new systems. The boxes are made in this body, since a function may hand out none.
fn run_words<S: Shelf, K: Sink>(
    alloc: Global,
    words: &[String],
    shelf: &mut S,
    text: &mut K,
) -> Result<Status, OutOfMemory>
    ensures { IfOk result (λ status. Ran (words_of words.now)
        (scene (S.held shelf.old) (K.told text.old) (S.counts shelf.old) (K.faults text.old))
        (scene (S.held shelf.new) (K.told text.new) (S.counts shelf.new) (K.faults text.new))
        status) }
{
    let mut rigs = Vec::with_capacity(alloc, 8)?;
    for _ in 0..8u8 {
        let ground: Box<dyn System> = Box::new(alloc, Ground::new(alloc))?;
        let range: Box<dyn System> = Box::new(alloc, Range::looking(alloc))?;
        let watch: Box<dyn System> = Box::new(alloc, Watch::new(alloc))?;
        let census: Box<dyn System> = Box::new(alloc, Census::new(alloc))?;
        add_rig(&mut rigs, Rig::new(ground, range, watch, census))?;
    }
    run_with(alloc, words, shelf, text, rigs)
}
