//! A shelf in memory. Whoever wants to run the program without files, tests above all, hands it in; its room makes a
//! full disk at any place, and its list of calls makes any call fail.

ghost use Rattle.std.specs.Prelude.{[], drop, false, IfOk, is_ok, IsErr, IsFalse, IsOk, IsTrue, length, List, min, None, OnErr, OnOk, option_copied, Some};
ghost use Rattle.std.specs.Prelude.{vec_len, ℕ, ◌++◌, ◌+◌, ◌<◌, ◌↔◌, ◌∷◌, ◌≡◌, ◌≢◌, ◌≤◌};
ghost use Rattle.sim_store.specs.Shelf.{MakeCounts, MakeHolds, OpenCounts, OpenTells, ReadCounts, WriteHolds, no_counts, opens};
ghost use Rattle.sim_store.specs.{Held.FileSet, Held.file_in, Held.first_bytes, Held.first_capacity, Pieces.AddsWhole, Pieces.Moves, Shelf.KeepsReading};

use crate::held::{Held, add_to_first, find, put_first};
use crate::open_file::OpenFile;
use crate::{Calls, Counts, Failed, Shelf, ShelfFault};
use sim_base::{Global, OutOfMemory};

/// Files in memory. A made file has room for as many bytes as was said at first, and one that was put has no limit.
#[derive(Drop)]
pub struct MemShelf {
    alloc: Global,
    room: usize,
    // The newest first, and of files with one name the first counts. The one that is being made is the first.
    files: Vec<Held>,
    reading: Option<OpenFile>,
    is_making: bool,
    counts: Counts,
    calls: Calls,
    ghost made_first: { IsTrue is_making → 0 < vec_len files },
    ghost within: { IsTrue is_making → length (first_bytes files.items) ≤ room },
    ghost has_memory: { IsTrue is_making → room ≤ first_capacity files.items },
}

impl MemShelf {
    ghost use Rattle.sim_store.specs.MemShelf.{AreFilesKept, calls_on, counts_on, failing_on, files_on, is_making_on, is_open_on, IsNoCall, room_on};

    /// A shelf that holds nothing. It keeps the allocator, and each file that is made on it has this room. It takes no
    /// memory yet.
    pub fn new(alloc: Global, room: usize) -> Result<MemShelf, OutOfMemory>
        ensures ok { IsOk result }
        ensures files { IfOk result (λ shelf. files_on shelf ≡ []) }
        ensures room { IfOk result (λ shelf. room_on shelf ≡ room) }
        ensures counts { IfOk result (λ shelf. counts_on shelf ≡ no_counts) }
        ensures opened { IfOk result (λ shelf. is_open_on shelf ≡ false) }
        ensures making { IfOk result (λ shelf. is_making_on shelf ≡ false) }
        ensures calls { IfOk result (λ shelf. calls_on shelf ≡ 0) }
        ensures failing { IfOk result (λ shelf. failing_on shelf ≡ []) }
    {
        Ok(MemShelf {
            alloc,
            room,
            files: Vec::new(alloc),
            reading: None,
            is_making: false,
            counts: Counts::default(),
            calls: Calls::new(alloc),
        })
    }

    /// Holds these bytes under the name, in place of what the name held. If a file is being made, that ends, and its
    /// name holds what was written so far. Without memory nothing changes.
    pub fn put(&mut self, name: &str, bytes: &[u8]) -> Result<(), OutOfMemory>
        ensures ok { OnOk result (FileSet name.now bytes.now (files_on self.old) (files_on self.new)) }
        ensures err { OnErr result (AreFilesKept self.old self.new) }
        ensures ends { OnOk result (is_making_on self.new ≡ false) }
        ensures failing { failing_on self.new ≡ failing_on self.old }
        ensures no_call { IsNoCall self.old self.new }
    {
        let bytes = bytes.to_vec(self.alloc)?;
        put_first(self.alloc, &mut self.files, name, bytes)?;
        self.is_making = false;
        Ok(())
    }

    /// The bytes that are held under the name.
    pub fn held(&self, name: &str) -> Option<&[u8]>
        ensures { option_copied result ≡ file_in (files_on self.now) name.now }
    {
        find(&self.files, name)
    }

    /// Lists a call to fail, by its number among the calls of `Shelf` since the shelf was made, the first being 1. Any
    /// number of calls may be listed.
    pub fn fail_at(&mut self, call: u64) -> Result<(), OutOfMemory>
        ensures ok { OnOk result (failing_on self.new ≡ failing_on self.old ++ call ∷ []) }
        ensures err { OnErr result (failing_on self.new ≡ failing_on self.old) }
        ensures files { AreFilesKept self.old self.new }
        ensures no_call { IsNoCall self.old self.new }
    {
        self.calls.list(call)?;
        Ok(())
    }

    /// How many calls of `Shelf` there were since the shelf was made.
    pub fn calls(&self) -> u64
        ensures { result ≡ calls_on self.now }
    {
        self.calls.made()
    }
}

impl Shelf for MemShelf {
    ghost use Rattle.sim_store.specs.MemShelf.{counts_on, fails_next_on, files_on, is_making_on, is_open_on, IsCall, IsListedCall, LooksOn};
    ghost use Rattle.sim_store.specs.MemShelf.{made_name_on, made_on, rest_on, room_on, WritesOn};

    ghost held = { λ shelf. Some (files_on shelf) };

    ghost rest = { rest_on };

    ghost is_open = { is_open_on };

    ghost is_making = { is_making_on };

    ghost made_name = { made_name_on };

    ghost made = { made_on };

    ghost counts = { counts_on };

    /// Fails where the call is listed, and for want of memory: it copies the file, unless that is empty.
    fn open(&mut self, name: &str) -> Result<bool, ShelfFault>
        ensures looks { LooksOn (result ≡ Err ShelfFault.Failed) self.old self.new }
        ensures opened { is_open_on self.new ≡ opens result }
        ensures tells { OpenTells result (file_in (files_on self.old) name.now) (rest_on self.new) }
        ensures empty { file_in (files_on self.old) name.now ≡ Some [] → result ≢ Err ShelfFault.OutOfMemory }
        ensures counts { OpenCounts result (counts_on self.old) (counts_on self.new) }
    {
        self.reading = None;
        if self.calls.count() {
            self.counts.add_read_fault();
            return Err(ShelfFault::Failed);
        }
        let Some(bytes) = find(&self.files, name) else {
            self.counts.add_miss();
            return Ok(false);
        };
        self.reading = Some(OpenFile::copy_of(self.alloc, bytes)?);
        Ok(true)
    }

    /// Moves as many bytes as are left and fit, and leaves what stands behind them in the buffer; or fails where the call
    /// is listed, and leaves all of it.
    fn read(&mut self, into: &mut [u8]) -> Result<usize, Failed>
        requires { IsTrue (is_open_on self.old) }
        ensures looks { LooksOn (IsErr result) self.old self.new }
        ensures moves { Moves result into.new (rest_on self.old) (rest_on self.new) }
        ensures gives { (left : List ℕ) → rest_on self.old ≡ Some left → IfOk result (λ count. count ≡ min (length left) (length into.new)) }
        ensures behind { IfOk result (λ count. drop count into.new ≡ drop count into.old) }
        ensures err { OnErr result (into.new ≡ into.old) }
        ensures opened { IsTrue (is_open_on self.new) }
        ensures counts { ReadCounts result (counts_on self.old) (counts_on self.new) }
    {
        if self.calls.count() {
            self.counts.add_read_fault();
            return Err(Failed);
        }
        let Some(file) = &mut self.reading else {
            unreachable!()
        };
        let count = file.read(into);
        self.counts.add_given(count);
        Ok(count)
    }

    /// Fails where the call is listed, and for want of memory: it takes all the memory that the file will need.
    fn make(&mut self, name: &str) -> Result<(), ShelfFault>
        ensures call { IsListedCall (result ≡ Err ShelfFault.Failed) self.old self.new }
        ensures making { is_making_on self.new ≡ is_ok result }
        ensures name { OnOk result (made_name_on self.new ≡ name.now) }
        ensures made { OnOk result (made_on self.new ≡ Some []) }
        ensures held { MakeHolds result name.now (Some (files_on self.old)) (Some (files_on self.new)) }
        ensures counts { MakeCounts result (counts_on self.old) (counts_on self.new) }
        ensures reading { KeepsReading is_open_on rest_on self.old self.new }
    {
        self.is_making = false;
        if self.calls.count() {
            self.counts.add_write_fault();
            return Err(ShelfFault::Failed);
        }
        let bytes = Vec::with_capacity(self.alloc, self.room)?;
        put_first(self.alloc, &mut self.files, name, bytes)?;
        self.is_making = true;
        Ok(())
    }

    /// Takes the whole piece, or fails where the call is listed or that would take the file past the room. It takes no
    /// memory.
    fn write(&mut self, piece: &[u8]) -> Result<usize, Failed>
        requires { IsTrue (is_making_on self.old) }
        ensures fails { IsTrue (fails_next_on self.old) → IsErr result }
        ensures fits { (bytes : List ℕ) → file_in (files_on self.old) (made_name_on self.old) ≡ Some bytes
            → (IsOk result ↔ (IsFalse (fails_next_on self.old) × (length bytes + length piece.now ≤ room_on self.old))) }
        ensures call { IsCall self.old self.new }
        ensures held { WriteHolds result (made_name_on self.old) piece.now (Some (files_on self.old)) (Some (files_on self.new)) }
        ensures adds { AddsWhole result piece.now (made_on self.old) (made_on self.new) }
        ensures making { IsTrue (is_making_on self.new) }
        ensures name { made_name_on self.new ≡ made_name_on self.old }
        ensures writes { WritesOn result self.old self.new }
    {
        if self.calls.count() || add_to_first(&mut self.files, self.room, piece).is_err() {
            self.counts.add_write_fault();
            return Err(Failed);
        }
        Ok(piece.len())
    }

    /// Fails where the call is listed.
    fn close(&mut self) -> Result<(), Failed>
        ensures call { IsListedCall (IsErr result) self.old self.new }
        ensures making { is_making_on self.new ≡ false }
        ensures held { files_on self.new ≡ files_on self.old }
        ensures writes { WritesOn result self.old self.new }
    {
        self.is_making = false;
        if self.calls.count() {
            self.counts.add_write_fault();
            return Err(Failed);
        }
        Ok(())
    }
}
