//! A system with one file, in memory. Signals interrupt its calls, it moves a few bytes at once, and it refuses names and calls.

ghost use Rattle.std.specs.Prelude.{◌≤◌, IfOk};

use sim_base::{Global, OutOfMemory};
use sim_edge::FileSystem;
use std::io;
use std::io::{ErrorKind, Read, Write};

/// How the calls of an open file go.
#[derive(Clone, Copy)]
pub struct Calls {
    /// So many signals come before each call.
    pub signals: usize,
    /// So many bytes are moved at once.
    pub most: usize,
    /// What each call fails with that no signal interrupts, if it does.
    pub fault: Option<ErrorKind>,
}

/// No signal comes, and all is moved at once.
pub const PLAIN: Calls = Calls {
    signals: 0,
    most: usize::MAX,
    fault: None,
};

/// An open file: its bytes, and how far reading has come.
#[derive(Drop)]
pub struct Handle {
    pub bytes: Vec<u8>,
    at: usize,
    calls: Calls,
    interrupted: usize,
}

impl Handle {
    /// A file of these bytes.
    pub fn new(bytes: Vec<u8>, calls: Calls) -> Handle {
        Handle {
            bytes,
            at: 0,
            calls,
            interrupted: 0,
        }
    }

    // How many bytes a call moves of those that there are, or why it fails.
    fn moved(&mut self, bytes: usize) -> io::Result<usize>
        ensures { IfOk result (λ count. count ≤ bytes) }
    {
        if self.interrupted < self.calls.signals {
            self.interrupted += 1;
            return Err(io::Error::from(ErrorKind::Interrupted));
        }
        self.interrupted = 0;
        match self.calls.fault {
            Some(kind) => Err(io::Error::from(kind)),
            None => Ok(bytes.min(self.calls.most)),
        }
    }
}

impl Read for Handle {
    fn read(&mut self, into: &mut [u8]) -> io::Result<usize> {
        let left = self.bytes.len().saturating_sub(self.at);
        let count = self.moved(left.min(into.len()))?;
        for (place, byte) in into[..count]
            .iter_mut()
            .zip(self.bytes.iter().skip(self.at))
        {
            *place = *byte;
        }
        self.at = self.at.saturating_add(count);
        Ok(count)
    }
}

impl Write for Handle {
    fn write(&mut self, piece: &[u8]) -> io::Result<usize> {
        let count = self.moved(piece.len())?;
        self.bytes.extend_from_slice(&piece[..count])?;
        Ok(count)
    }

    fn flush(&mut self) -> io::Result<()> {
        Ok(())
    }
}

/// The one file, by its name, and how the calls of it go. A file that is made takes its place when it is closed.
#[derive(Drop)]
pub struct OneFile {
    pub alloc: Global,
    pub name: &'static str,
    pub bytes: Vec<u8>,
    pub calls: Calls,
    /// What each opening and making fails with, if it does.
    pub refusal: Option<ErrorKind>,
}

impl OneFile {
    /// A system whose one file has these bytes.
    pub fn new(
        alloc: Global,
        name: &'static str,
        bytes: &[u8],
        calls: Calls,
    ) -> Result<OneFile, OutOfMemory> {
        Ok(OneFile {
            alloc,
            name,
            bytes: bytes.to_vec(alloc)?,
            calls,
            refusal: None,
        })
    }

    // Why a file of this name is not handed out, if it is not.
    fn refused(&self, name: &str) -> io::Result<()> {
        match self.refusal {
            Some(kind) => Err(io::Error::from(kind)),
            None if name != self.name => Err(io::Error::from(ErrorKind::NotFound)),
            None => Ok(()),
        }
    }
}

impl FileSystem for OneFile {
    type File = Handle;

    ghost open_gives = { λ _ _ _ _. Unit {0} };

    ghost make_gives = { λ _ _ _ _. Unit {0} };

    ghost close_gives = { λ _ _ _. Unit {0} };

    fn open(&mut self, name: &str) -> io::Result<Handle> {
        self.refused(name)?;
        Ok(Handle::new(self.bytes.to_vec(self.alloc)?, self.calls))
    }

    fn make(&mut self, name: &str) -> io::Result<Handle> {
        self.refused(name)?;
        self.bytes.clear();
        Ok(Handle::new(Vec::new(self.alloc), self.calls))
    }

    fn close(&mut self, file: Handle) {
        self.bytes = file.bytes;
    }
}
