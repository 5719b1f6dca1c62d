//! A file in memory that is being read: its bytes, and how far reading has come.

ghost use Rattle.std.specs.Prelude.{◌≡◌, ◌≤◌, min, [], ◌++◌, length, take, drop, IfOk, IsOk, vec_len};

use std::alloc::{AllocError, Global};

/// A copy of the bytes of a file, so that making a file of that name does not disturb who reads the old one.
#[derive(Drop)]
pub struct OpenFile {
    bytes: Vec<u8>,
    at: usize,
    ghost within: { at ≤ vec_len bytes },
}

impl OpenFile {
    ghost use Rattle.sim_store.specs.OpenFile.{bytes_left};

    /// A file of which all is left.
    fn new(bytes: Vec<u8>) -> OpenFile
        ensures { bytes_left result ≡ bytes.items }
    {
        OpenFile { bytes, at: 0 }
    }

    /// A file of a copy of these bytes. For none of them it takes no memory.
    pub fn copy_of(alloc: Global, bytes: &[u8]) -> Result<OpenFile, AllocError>
        ensures copy { IfOk result (λ file. bytes_left file ≡ bytes.now) }
        ensures empty { bytes.now ≡ [] → IsOk result }
    {
        if bytes.is_empty() {
            return Ok(OpenFile::new(Vec::new(alloc)));
        }
        Ok(OpenFile::new(bytes.to_vec(alloc)?))
    }

    /// Moves the next bytes to the buffer's start, as many as there are and fit, and answers how many. What stands behind
    /// them in the buffer stays.
    pub fn read(&mut self, into: &mut [u8]) -> usize
        ensures count { result ≡ min (length (bytes_left self.old)) (length into.new) }
        ensures bytes { bytes_left self.old ≡ take result into.new ++ bytes_left self.new }
        ensures behind { drop result into.new ≡ drop result into.old }
    {
        let left = &self.bytes[self.at..];
        let count = left.len().min(into.len());
        into[..count].copy_from_slice(&left[..count]);
        self.at += count;
        count
    }
}
