//! Whole-number helpers of the simulation: the root, by which distances are measured, and the random word.

ghost use Rattle.std.specs.Prelude.{◌<◌, ◌^◌, ◌≡◌};
ghost use Rattle.sim_base.specs.Places.{IsRoot, next_word as word_after, root as root_of};

/// The greatest whole number whose square is at most `n`.
pub fn root(n: u64) -> u32
    ensures bounds { IsRoot n result }
    ensures value { result ≡ root_of n }
{
    n.isqrt() as u32
}

/// The random word after this one: one step of the generator known as rand48.
pub fn next_word(word: u64) -> u64
    requires { word < 2 ^ 48 }
    ensures { result ≡ word_after word }
{
    word.wrapping_mul(0x5DEECE66D).wrapping_add(0xB) & 0xFFFF_FFFF_FFFF
}
