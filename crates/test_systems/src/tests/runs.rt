//! Runs on rigs that a test has made, and what they printed. Literals stand in calls of functions that have no contract, since a proof would
//! reckon with each of their letters where a contract speaks of them.

ghost use Rattle.{sim_client.specs.StageWords.AreCleared, sim_system.specs.Meanings.HaveKinds, sim_system.specs.RigWords.systems_of};
ghost use Rattle.std.specs.Prelude.{◌≡◌, length, All};

use sim_base::{Global, OutOfMemory};
use sim_store::MemSink;
use sim_system::{Rig, System};
use sim_top::Status;
use test_runs::{Printed, print, run_with, shelf_of, words_of};

/// Runs the words over these files, on these rigs.
pub fn print_on(
    alloc: Global,
    words: &[&str],
    files: &[(&str, &[u8])],
    rigs: Vec<Rig>,
) -> Result<Printed, OutOfMemory>
    requires eight { length rigs.items ≡ 8 }
    requires kinds { All (λ r. HaveKinds (systems_of r ⟦<dyn System as System>⟧)) rigs.items }
    requires cleared { All (λ r. AreCleared (systems_of r ⟦<dyn System as System>⟧)) rigs.items }
{
    let words = words_of(alloc, words)?;
    let mut shelf = shelf_of(alloc, files)?;
    let mut out = MemSink::new(alloc, 100_000)?;
    let status = run_with(alloc, &words, &mut shelf, &mut out, rigs)?;
    printed(alloc, status, &out)
}

/// What a run has printed that ended so.
pub fn printed(alloc: Global, status: Status, out: &MemSink) -> Result<Printed, OutOfMemory> {
    let text = String::from_utf8_lossy(alloc, out.told())?;
    Ok(Printed { status, text })
}

/// Plays the match of a file with the usual systems and handlers.
pub fn play(alloc: Global, file: &str) -> Result<Printed, OutOfMemory> {
    let mut shelf = shelf_of(alloc, &[("m", file.as_bytes())])?;
    print(alloc, &["play", "m"], &mut shelf)
}

/// Whether a run ended so, and printed just this.
pub fn ended(printed: &Printed, status: Status, text: &str) -> bool {
    printed.status == status && printed.text.as_str() == text
}
