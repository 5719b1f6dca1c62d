//! Places to which bytes are told piece by piece. One writer serves them all: what is spelled into a list is also what
//! is digested and what is compared, with no copy between.

ghost use Rattle.{sim_base.specs.Spelling.{i32_bytes, u16_bytes, u32_bytes, u64_bytes}, sim_bytes.specs.Telling.{Compared, ListHolds, Tells}};
ghost use Rattle.std.specs.Prelude.{IsTrue, List, OnErr, OnOk, ℕ, [], ◌↔◌, ◌∷◌, ◌≡◌};

use sim_base::OutOfMemory;
use std::convert::Infallible;

/// A place to which bytes are told.
pub trait ByteSink {
    /// Why bytes could not be told.
    type Fault: Drop;

    /// Made for the first bytes, the place was told the second so far.
    ghost holds: { Self → List ℕ → List ℕ → Type 0 };

    /// Tells more bytes.
    fn tell(&mut self, bytes: &[u8]) -> Result<(), Self::Fault>
        ensures { OnOk result (Tells holds self.old self.new bytes.now) };
}

impl ByteSink for Vec<u8> {
    type Fault = OutOfMemory;

    ghost holds = { ListHolds };

    fn tell(&mut self, bytes: &[u8]) -> Result<(), OutOfMemory>
        ensures ok { OnOk result (Tells ListHolds self.old self.new bytes.now) }
        ensures err { OnErr result (self.new.items ≡ self.old.items) }
    {
        self.extend_from_slice(bytes)?;
        Ok(())
    }
}

/// Compares what it is told with wanted bytes: those that are still to come, and whether all were the same so far.
#[derive(Drop)]
pub struct Comparing<'a> {
    pub rest: &'a [u8],
    pub same: bool,
}

impl<'a> Comparing<'a> {
    /// Compares with these bytes.
    pub fn new(wanted: &'a [u8]) -> Comparing<'a>
        ensures { Compared wanted.now result.rest.now result.same [] }
    {
        Comparing {
            rest: wanted,
            same: true,
        }
    }

    /// Whether just the wanted bytes were told.
    pub fn is_same(&self) -> bool
        ensures { (wanted told : List ℕ) → Compared wanted self.now.rest.now self.now.same told → IsTrue result ↔ (wanted ≡ told) }
    {
        self.same && self.rest.is_empty()
    }
}

impl ByteSink for Comparing<'_> {
    type Fault = Infallible;

    ghost holds = { λ comparing about told. Compared about comparing.rest.now comparing.same told };

    fn tell(&mut self, bytes: &[u8]) -> Result<(), Infallible> {
        if !self.same {
            return Ok(());
        }
        if self.rest.len() < bytes.len() {
            self.same = false;
            return Ok(());
        }
        let (front, rest) = self.rest.split_at(bytes.len());
        self.rest = rest;
        self.same = front == bytes;
        Ok(())
    }
}

/// Tells one byte.
pub fn tell_u8<K: ByteSink>(out: &mut K, value: u8) -> Result<(), K::Fault>
    ensures { OnOk result (Tells K.holds out.old out.new (value ∷ [])) }
{
    out.tell(&[value])
}

/// Tells two bytes, the lowest first.
#[tactic(auto, unfolding(sim_base::specs::Spelling::u16_bytes))]
pub fn tell_u16<K: ByteSink>(out: &mut K, value: u16) -> Result<(), K::Fault>
    ensures { OnOk result (Tells K.holds out.old out.new (u16_bytes value)) }
{
    out.tell(&value.to_le_bytes())
}

/// Tells four bytes, the lowest first.
#[tactic(auto, unfolding(sim_base::specs::Spelling::u32_bytes))]
pub fn tell_u32<K: ByteSink>(out: &mut K, value: u32) -> Result<(), K::Fault>
    ensures { OnOk result (Tells K.holds out.old out.new (u32_bytes value)) }
{
    out.tell(&value.to_le_bytes())
}

/// Tells eight bytes, the lowest first.
#[tactic(auto, unfolding(sim_base::specs::Spelling::u64_bytes))]
pub fn tell_u64<K: ByteSink>(out: &mut K, value: u64) -> Result<(), K::Fault>
    ensures { OnOk result (Tells K.holds out.old out.new (u64_bytes value)) }
{
    out.tell(&value.to_le_bytes())
}

/// Tells four bytes in two's complement, the lowest first.
#[tactic(auto, unfolding(sim_base::specs::Spelling::i32_bytes))]
pub fn tell_i32<K: ByteSink>(out: &mut K, value: i32) -> Result<(), K::Fault>
    ensures { OnOk result (Tells K.holds out.old out.new (i32_bytes value)) }
{
    out.tell(&value.to_le_bytes())
}
