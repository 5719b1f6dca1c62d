//! The trait of a shelf: files by name, one of which may be open for reading and one being made. It is a trait so that
//! the program reads and writes through it alone, and is proved for every shelf that keeps these promises.

ghost use Rattle.sim_store.specs.{declared.counts.Counts.Counts, Held.{File, file_in}, Pieces.{Adds, Moves}};
ghost use Rattle.sim_store.specs.Shelf.{KeepsFiles, KeepsReading, MakeCounts, MakeHolds, OpenCounts, opens, OpenTells, ReadCounts, WriteCounts, WriteHolds};
ghost use Rattle.std.specs.{Io.KnownBytes.IsAtEnd, Prelude.{Bool, false, IfSome, is_ok, IsTrue, List, OnOk, Option, ℕ, ◌≡◌}};

use crate::fault::{Failed, ShelfFault};

/// Files by name. The ghost members are what a shelf means; one that tells nothing of its files' content says `None`.
/// No call changes the held files, except that `make` and `write` change the one that is being made.
pub trait Shelf {
    /// The held files, where the shelf tells them.
    ghost held: { Self → Option (List File) };

    /// What is left of the file that is open for reading, where the shelf tells it.
    ghost rest: { Self → Option (List ℕ) };

    /// Whether a file is open for reading.
    ghost is_open: { Self → Bool };

    /// Whether a file is being made.
    ghost is_making: { Self → Bool };

    /// The name of the file that is being made, where the shelf tells its files.
    ghost made_name: { Self → List ℕ };

    /// What the file that is being made holds so far, where the shelf tells it.
    ghost made: { Self → Option (List ℕ) };

    /// What was handed out, missed and failed so far.
    ghost counts: { Self → Counts };

    /// Begins to read a file at its start, in place of another that is open. False says that no such file is held, which
    /// takes no memory to find out. After every other answer than true no file is open.
    fn open(&mut self, name: &str) -> Result<bool, ShelfFault>
        ensures opened { is_open self.new ≡ opens result }
        ensures tells { IfSome (held self.old) (λ files. OpenTells result (file_in files name.now) (rest self.new)) }
        ensures counts { OpenCounts result (counts self.old) (counts self.new) }
        ensures files { KeepsFiles held is_making made_name made self.old self.new };

    /// Moves the next bytes of the open file to the buffer's start, and answers how many. Where the buffer has room, 0
    /// is the end of the file.
    fn read(&mut self, into: &mut [u8]) -> Result<usize, Failed>
        requires { IsTrue (is_open self.old) }
        ensures moves { Moves result into.new (rest self.old) (rest self.new) }
        ensures opened { IsTrue (is_open self.new) }
        ensures counts { ReadCounts result (counts self.old) (counts self.new) }
        ensures files { KeepsFiles held is_making made_name made self.old self.new };

    /// Begins an empty file of this name, in place of what the name held. If it is refused, none is being made.
    fn make(&mut self, name: &str) -> Result<(), ShelfFault>
        ensures making { is_making self.new ≡ is_ok result }
        ensures name { OnOk result (IfSome (held self.old) (λ _. made_name self.new ≡ name.now)) }
        ensures made { OnOk result (IsAtEnd (made self.new)) }
        ensures held { MakeHolds result name.now (held self.old) (held self.new) }
        ensures counts { MakeCounts result (counts self.old) (counts self.new) }
        ensures reading { KeepsReading is_open rest self.old self.new };

    /// Adds the beginning of the piece at the end of the file that is being made, and answers how much of it.
    fn write(&mut self, piece: &[u8]) -> Result<usize, Failed>
        requires { IsTrue (is_making self.old) }
        ensures adds { Adds result piece.now (made self.old) (made self.new) }
        ensures held { WriteHolds result (made_name self.old) piece.now (held self.old) (held self.new) }
        ensures making { IsTrue (is_making self.new) }
        ensures name { made_name self.new ≡ made_name self.old }
        ensures counts { WriteCounts result (counts self.old) (counts self.new) }
        ensures reading { KeepsReading is_open rest self.old self.new };

    /// Ends the file that is being made, also where it fails.
    fn close(&mut self) -> Result<(), Failed>
        requires { IsTrue (is_making self.old) }
        ensures making { is_making self.new ≡ false }
        ensures held { held self.new ≡ held self.old }
        ensures counts { WriteCounts result (counts self.old) (counts self.new) }
        ensures reading { KeepsReading is_open rest self.old self.new };
}
