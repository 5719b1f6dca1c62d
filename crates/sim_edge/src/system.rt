//! The files of a system, by their paths. They are a trait, so that the shelf over them is proved for every system, and tried over
//! one in memory that interrupts, cuts short and refuses.

ghost use Rattle.std.specs.{Io.KnownBytes.IsAtEnd, Prelude.ℕ, Prelude.List, Prelude.IfOk, Prelude.Result, declared.io.Error.Error};

use crate::device::{Readable, Writable};
use std::fs::File;
use std::rt::Files;
use std::{fs, io};

/// Files by their paths. What its calls may answer are its meanings: so whoever asks it for one file and answers another, or
/// answers by himself, is refused.
pub trait FileSystem: Drop {
    type File: Readable + Writable + Drop;

    /// Whether the opening of a file of this name may answer so.
    ghost open_gives: { Self → List ℕ → Result Self.File Error → Self → Type 0 };

    /// Whether the making of a file of this name may answer so.
    ghost make_gives: { Self → List ℕ → Result Self.File Error → Self → Type 0 };

    /// Whether this file may be closed so.
    ghost close_gives: { Self → Self.File → Self → Type 0 };

    /// Opens the file of this name, to be read from its start.
    fn open(&mut self, name: &str) -> io::Result<Self::File>
        ensures { open_gives self.old name.now result self.new };

    /// Makes an empty file of this name, in place of what the name held.
    fn make(&mut self, name: &str) -> io::Result<Self::File>
        ensures gives { make_gives self.old name.now result self.new }
        ensures empty { IfOk result (λ file. IsAtEnd (Self.File.holds file)) };

    /// Closes a file that was made.
    fn close(&mut self, file: Self::File)
        ensures { close_gives self.old file self.new };
}

/// The files of the running system. Std says nothing of what they answer, so nothing is known of it here.
#[derive(Drop)]
pub struct SystemFiles<'a, R: Files<File = File>> {
    rt: &'a R,
}

impl<'a, R: Files<File = File>> SystemFiles<'a, R> {
    /// The files of the system that this handle stands for.
    pub fn new(rt: &'a R) -> SystemFiles<'a, R> {
        SystemFiles { rt }
    }
}

impl<R: Files<File = File>> FileSystem for SystemFiles<'_, R> {
    type File = File;

    ghost open_gives = { λ _ _ _ _. Unit {0} };

    ghost make_gives = { λ _ _ _ _. Unit {0} };

    ghost close_gives = { λ _ _ _. Unit {0} };

    fn open(&mut self, name: &str) -> io::Result<File> {
        fs::open(self.rt, name)
    }

    fn make(&mut self, name: &str) -> io::Result<File> {
        fs::create(self.rt, name)
    }

    fn close(&mut self, _file: File) {}
}
