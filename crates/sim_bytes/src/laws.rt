//! Theorems about the definitions, each the contract of a function that does nothing.

ghost use Rattle.{sim_base.specs.Spelling.{i32_bytes, u16_bytes, u32_bytes, u64_bytes}, sim_bytes.specs.Reading.{number_at, signed_at}};
ghost use Rattle.std.specs.{Int.{w16, w32, w64}, Prelude.{FitsSigned, List, Some, ℕ, ℤ, ◌++◌, ◌<◌, ◌^◌, ◌≡◌}};

/// The bytes of a number are read as that number, whatever follows them.
pub fn numbers_are_read_back()
    ensures u16 { (n : ℕ) (rest : List ℕ) → n < 2 ^ 16 → number_at w16 (u16_bytes n ++ rest) ≡ Some (n, rest) }
    ensures u32 { (n : ℕ) (rest : List ℕ) → n < 2 ^ 32 → number_at w32 (u32_bytes n ++ rest) ≡ Some (n, rest) }
    ensures u64 { (n : ℕ) (rest : List ℕ) → n < 2 ^ 64 → number_at w64 (u64_bytes n ++ rest) ≡ Some (n, rest) }
    ensures i32 { (z : ℤ) (rest : List ℕ) → FitsSigned w32 z → signed_at (i32_bytes z ++ rest) ≡ Some (z, rest) }
{}
