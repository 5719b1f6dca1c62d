//! The versions of the layout. Both are read, and the second alone is written.

ghost use Rattle.std.specs.Prelude.{◌≡◌};
ghost use Rattle.sim_bytes.specs.Rows.{has_stances as says_stances, number_of};

/// A version of the layout. The first does not say who holds its place.
#[derive(Clone, Copy, Debug, PartialEq, Eq)]
pub enum Version {
    One,
    Two,
}

impl Version {
    /// The number that stands behind the magic.
    pub fn number(self) -> u32
        ensures { result ≡ number_of self }
    {
        match self {
            Version::One => 1,
            Version::Two => 2,
        }
    }

    /// Whether it says who holds its place.
    pub fn has_stances(self) -> bool
        ensures { result ≡ says_stances self }
    {
        self == Version::Two
    }
}
