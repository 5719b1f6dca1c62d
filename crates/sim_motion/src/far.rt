//! How far apart two points are. The root is guessed first, since it is most of what a step along a way costs; a guess is
//! taken only where it is the root, so that any guess is right.

ghost use Rattle.std.specs.Prelude.{IsTrue, ◌≡◌};
ghost use Rattle.sim_base.specs.Places.{IsPlaced, IsRoot, root as root_of, square as square_of};

use sim_base::{Point, root, square};

// How often a guess is made better. The first is at most twice the root, and each step squares what it is off: so after four
// nearly every distance on a land is met.
const STEPS: u32 = 4;

/// How far apart two points are, rounded down, in units of 1/65536 m.
pub fn distance(p: &Point, q: &Point) -> u32
    requires p { IsPlaced p.now }
    requires q { IsPlaced q.now }
    ensures { result ≡ root_of (square_of p.now q.now) }
{
    let square = square(*p, *q);
    let guess = guess_of(square);
    if is_root(guess, square) {
        guess
    } else {
        root(square)
    }
}

// Whether this is the greatest number whose square is at most another.
fn is_root(guess: u32, square: u64) -> bool
    ensures { IsTrue result → IsRoot square guess }
{
    let guess = u64::from(guess);
    let below = guess * guess;
    below <= square && square - below <= 2 * guess
}

// A number near the root of another: a power of two of half its size, made better by the rule of Newton.
fn guess_of(square: u64) -> u32 {
    let size = u64::BITS - square.leading_zeros();
    let mut guess = 1_u64.wrapping_shl(size.div_ceil(2));
    for _ in 0..STEPS {
        guess = guess.wrapping_add(square / guess.max(1)) / 2;
    }
    u32::try_from(guess).unwrap_or(0)
}
