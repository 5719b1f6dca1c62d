//! The reader of bytes. It stands apart so that every format is read through calls that cannot pass the end.

ghost use Rattle.std.specs.{Int.w16, Int.w32, Int.w64, Prelude.◌≡◌, Prelude.length};
ghost use Rattle.sim_bytes.specs.Reading.{byte_at, number_at, ReadsOrStays, signed_at};

use std::marker::Model;

/// Fewer bytes are left than the number has.
#[derive(Clone, Copy, Debug, PartialEq, Eq)]
pub struct Short;

/// Takes numbers from the front of bytes, which contracts see as the bytes that are left.
#[derive(Drop)]
pub struct Take<'a> {
    rest: &'a [u8],
}

impl<'a> Model for Take<'a> {
    ghost use Rattle.std.specs.Prelude.{ℕ, List};

    ghost Value = { List ℕ };

    ghost view = { λ take. take.rest.now };
}

impl<'a> Take<'a> {
    /// A reader at the first of these bytes.
    pub fn new(bytes: &'a [u8]) -> Take<'a>
        ensures { result ≡ bytes.now }
    {
        Take { rest: bytes }
    }

    /// A second reader at the same place.
    pub fn fork(&self) -> Take<'a>
        ensures { result ≡ self.now }
    {
        Take { rest: self.rest }
    }

    /// Lends the bytes that are left.
    pub fn bytes(&self) -> &'a [u8]
        ensures { result.now ≡ self.now }
    {
        self.rest
    }

    /// How many bytes are left.
    pub fn left(&self) -> usize
        ensures { result ≡ length self.now }
    {
        self.rest.len()
    }

    /// Takes one byte.
    pub fn u8(&mut self) -> Result<u8, Short>
        ensures { ReadsOrStays byte_at self.old result self.new }
    {
        match self.rest {
            [] => Err(Short),
            [byte, rest @ ..] => {
                self.rest = rest;
                Ok(*byte)
            }
        }
    }

    /// Takes two bytes, the lowest first.
    pub fn u16(&mut self) -> Result<u16, Short>
        ensures { ReadsOrStays (number_at w16) self.old result self.new }
    {
        if self.rest.len() < 2 {
            return Err(Short);
        }
        let (front, rest) = self.rest.split_at(2);
        let number = u16::from_le_bytes([front[0], front[1]]);
        self.rest = rest;
        Ok(number)
    }

    /// Takes four bytes, the lowest first.
    pub fn u32(&mut self) -> Result<u32, Short>
        ensures { ReadsOrStays (number_at w32) self.old result self.new }
    {
        if self.rest.len() < 4 {
            return Err(Short);
        }
        let (front, rest) = self.rest.split_at(4);
        let number = u32::from_le_bytes([front[0], front[1], front[2], front[3]]);
        self.rest = rest;
        Ok(number)
    }

    /// Takes eight bytes, the lowest first.
    pub fn u64(&mut self) -> Result<u64, Short>
        ensures { ReadsOrStays (number_at w64) self.old result self.new }
    {
        if self.rest.len() < 8 {
            return Err(Short);
        }
        let (front, rest) = self.rest.split_at(8);
        let number = u64::from_le_bytes([
            front[0], front[1], front[2], front[3], front[4], front[5], front[6], front[7],
        ]);
        self.rest = rest;
        Ok(number)
    }

    /// Takes four bytes, the lowest first, as a number in two's complement.
    pub fn i32(&mut self) -> Result<i32, Short>
        ensures { ReadsOrStays signed_at self.old result self.new }
    {
        match self.u32() {
            Ok(bits) => Ok(bits.cast_signed()),
            Err(short) => Err(short),
        }
    }
}
