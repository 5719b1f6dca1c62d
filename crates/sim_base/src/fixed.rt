//! Fixed-point numbers: whole numbers of units of 1/65536, with arithmetic that is exact or refused. They are a type
//! of their own, so that a raw is never taken for a number of metres.

ghost use Rattle.sim_base.specs.Places.{product, quotient, unit};
ghost use Rattle.std.specs.{Int.{int_div_euclid, w32}, Prelude.{FitsSigned, pos, SomeIff, ◌*ℤ◌, ◌+ℤ◌, ◌-ℤ◌, ◌≡◌, ◌≢◌}};

use std::marker::Model;

/// A number with 16 bits behind the point, from -32768 to 32767 and 65535/65536.
///
/// Contracts see it as its raw, the whole number of units of 1/65536.
#[derive(Clone, Copy, Debug, PartialEq, Eq, PartialOrd, Ord)]
pub struct Fixed(i32);

impl Model for Fixed {
    ghost use Rattle.std.specs.Prelude.{ℤ};

    ghost Value = { ℤ };

    ghost view = { λ f. f.0 };

    ghost inverse = { λ z. record { 0 = z } };
}

impl Fixed {
    /// The number of so many units of 1/65536.
    pub fn from_raw(raw: i32) -> Fixed
        ensures { result ≡ raw }
    {
        Fixed(raw)
    }

    /// How many units of 1/65536 it has.
    pub fn raw(self) -> i32
        ensures { result ≡ self }
    {
        self.0
    }

    /// The sum, or None where it is out of range.
    pub fn checked_add(self, other: Fixed) -> Option<Fixed>
        ensures { SomeIff result (FitsSigned w32 (self +ℤ other)) (self +ℤ other) }
    {
        self.0.checked_add(other.0).map(Fixed::from_raw)
    }

    /// The difference, or None where it is out of range.
    pub fn checked_sub(self, other: Fixed) -> Option<Fixed>
        ensures { SomeIff result (FitsSigned w32 (self -ℤ other)) (self -ℤ other) }
    {
        self.0.checked_sub(other.0).map(Fixed::from_raw)
    }

    /// The product, rounded down, or None where it is out of range.
    pub fn checked_mul(self, other: Fixed) -> Option<Fixed>
        ensures { SomeIff result (FitsSigned w32 (product self other)) (product self other) }
    {
        narrowed(shifted(wide_product(self.0, other.0)))
    }

    /// The quotient, truncated towards zero, or None where it is out of range or the divisor is 0.
    pub fn checked_div(self, other: Fixed) -> Option<Fixed>
        ensures { SomeIff result ((other ≢ pos 0) × FitsSigned w32 (quotient self other)) (quotient self other) }
    {
        if other.0 == 0 {
            return None;
        }
        narrowed(wide_quotient(self.0, other.0))
    }
}

// The number of this raw, where it is in range.
fn narrowed(raw: i64) -> Option<Fixed>
    ensures { SomeIff result (FitsSigned w32 raw) raw }
{
    i32::try_from(raw).ok().map(Fixed::from_raw)
}

// The product of two raws, which has 32 bits behind the point.
fn wide_product(a: i32, b: i32) -> i64
    ensures { result ≡ a *ℤ b }
{
    i64::from(a) * i64::from(b)
}

// The number without its last 16 bits, rounded down.
fn shifted(wide: i64) -> i64
    ensures { result ≡ int_div_euclid wide (pos unit) }
{
    wide >> 16
}

fn wide_quotient(a: i32, b: i32) -> i64
    requires { b ≢ pos 0 }
    ensures { result ≡ quotient a b }
{
    i64::from(a) * 65536 / i64::from(b)
}
