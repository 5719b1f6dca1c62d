//! The shelf of a system's files, and a count of what failed. No contract can say what a real file holds, but what the system
//! answers to each call has a name, and so have the bytes that a file has left and those that it holds. The shelf is held to
//! these: it asks for the file that it was asked for, hands on what the system answers, and reads and writes each byte once.

ghost use Rattle.sim_edge.specs.{Answers.{Closes, Makes, Opens, Reads, WritesMade}, Known.known_of};
ghost use Rattle.sim_store.specs.{Pieces.{Adds, Moves}, Shelf.{MakeCounts, OpenCounts, opens, ReadCounts, WriteCounts}};
ghost use Rattle.std.specs.{Io.KnownBytes.IsAtEnd, Prelude.{is_ok, is_some, IsOk, IsTrue, None, OnOk, Option, [], ◌≡◌}};

use crate::again::read_again;
use crate::faults::{not_made, not_opened};
use crate::sink::write_to;
use crate::system::FileSystem;
use sim_store::{Counts, Failed, Shelf, ShelfFault};

/// The files of a system, one of which may be open for reading and one being made.
#[derive(Drop)]
pub struct FileShelf<F: FileSystem> {
    files: F,
    reading: Option<F::File>,
    making: Option<F::File>,
    counts: Counts,
}

impl<F: FileSystem> FileShelf<F> {
    /// No file is open and none is being made.
    pub fn new(files: F) -> FileShelf<F> {
        FileShelf {
            files,
            reading: None,
            making: None,
            counts: Counts::default(),
        }
    }
}

impl<F: FileSystem> Shelf for FileShelf<F> {
    ghost held = { λ s. None };

    ghost rest = { λ s. known_of F.File.left s.reading };

    ghost is_open = { λ s. is_some s.reading };

    ghost is_making = { λ s. is_some s.making };

    ghost made_name = { λ s. [] };

    ghost made = { λ s. known_of F.File.holds s.making };

    ghost counts = { λ s. s.counts };

    /// Asks the system for the file of this name.
    fn open(&mut self, name: &str) -> Result<bool, ShelfFault>
        ensures answer { Opens F.open_gives self.old.files name.now self.new.files result self.new.reading self.old.counts self.new.counts }
        ensures opened { is_some self.new.reading ≡ opens result }
        ensures counts { OpenCounts result self.old.counts self.new.counts }
        ensures making { self.new.making ≡ self.old.making }
    {
        self.reading = None;
        match self.files.open(name) {
            Ok(file) => {
                self.reading = Some(file);
                Ok(true)
            }
            Err(error) => not_opened(&mut self.counts, error.kind()),
        }
    }

    /// Reads from the system's file, and again where a signal interrupts that.
    fn read(&mut self, into: &mut [u8]) -> Result<usize, Failed>
        requires { IsTrue (is_some self.old.reading) }
        ensures answer { Reads F.File.read_gives self.old.reading into.old result self.new.reading into.new }
        ensures moves { Moves result into.new (known_of F.File.left self.old.reading) (known_of F.File.left self.new.reading) }
        ensures opened { IsTrue (is_some self.new.reading) }
        ensures counts { ReadCounts result self.old.counts self.new.counts }
        ensures stays { self.new ≡ record self.old { reading = self.new.reading; counts = self.new.counts } }
    {
        let Some(file) = &mut self.reading else {
            unreachable!()
        };
        match read_again(file, into) {
            Ok(count) => {
                self.counts.add_given(count);
                Ok(count)
            }
            Err(_) => {
                self.counts.add_read_fault();
                Err(Failed)
            }
        }
    }

    /// Asks the system to make the file of this name.
    fn make(&mut self, name: &str) -> Result<(), ShelfFault>
        ensures answer { Makes F.make_gives self.old.files name.now self.new.files result self.new.making self.old.counts self.new.counts }
        ensures making { is_some self.new.making ≡ is_ok result }
        ensures made { OnOk result (IsAtEnd (known_of F.File.holds self.new.making)) }
        ensures counts { MakeCounts result self.old.counts self.new.counts }
        ensures reading { self.new.reading ≡ self.old.reading }
    {
        self.making = None;
        match self.files.make(name) {
            Ok(file) => {
                self.making = Some(file);
                Ok(())
            }
            Err(error) => Err(not_made(&mut self.counts, error.kind())),
        }
    }

    /// Writes to the system's file, and again where a signal interrupts that.
    fn write(&mut self, piece: &[u8]) -> Result<usize, Failed>
        requires { IsTrue (is_some self.old.making) }
        ensures answer { WritesMade F.File.write_gives piece.now self.old.making result self.new.making }
        ensures adds { Adds result piece.now (known_of F.File.holds self.old.making) (known_of F.File.holds self.new.making) }
        ensures making { IsTrue (is_some self.new.making) }
        ensures counts { WriteCounts result self.old.counts self.new.counts }
        ensures stays { self.new ≡ record self.old { making = self.new.making; counts = self.new.counts } }
    {
        let Some(file) = &mut self.making else {
            unreachable!()
        };
        let answer = write_to(file, piece);
        if answer.is_err() {
            self.counts.add_write_fault();
        }
        answer
    }

    /// Hands the file to the system to be closed. What the system reports only then is not seen, so this never fails.
    fn close(&mut self) -> Result<(), Failed>
        requires { IsTrue (is_some self.old.making) }
        ensures answer { Closes F.close_gives self.old.files self.old.making self.new.files }
        ensures ok { IsOk result }
        ensures closed { self.new ≡ record self.old { files = self.new.files; making = None } }
    {
        let Some(file) = self.making.take() else {
            unreachable!()
        };
        self.files.close(file);
        Ok(())
    }
}
