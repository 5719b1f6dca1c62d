//! The first turn at which two lists of digests differ.

ghost use Rattle.std.specs.Prelude.{◌≡◌, ◌^◌, ◌<◌, length, take, IfSome, None};
ghost use Rattle.sim_replay.specs.Apart.{first_apart as first_apart_of, IsFirstApart};

/// A turn at which the digest that a log tells is not the one that was played.
#[derive(Clone, Copy, Debug, PartialEq, Eq)]
pub struct Apart {
    pub turn: u32,
    pub told: [u8; 16],
    pub played: [u8; 16],
}

/// The first turn, from 0 on, that two lists of digests both have and at which they differ.
pub fn first_apart(told: &[[u8; 16]], played: &[[u8; 16]]) -> Option<Apart>
    requires { length told.now < 2 ^ 32 }
    ensures is { result ≡ first_apart_of told.now played.now }
    ensures none { result ≡ None → take (length played.now) told.now ≡ take (length told.now) played.now }
    ensures same { length told.now ≡ length played.now → result ≡ None → told.now ≡ played.now }
    ensures some { IfSome result (IsFirstApart told.now played.now) }
{
    search(told, played)
}

fn search(told: &[[u8; 16]], played: &[[u8; 16]]) -> Option<Apart>
    requires { length told.now < 2 ^ 32 }
    ensures { result ≡ first_apart_of told.now played.now }
{
    let mut turn: u32 = 0;
    let mut rest = told;
    let mut other = played;
    while let [told, more @ ..] = rest {
        let [played, others @ ..] = other else {
            return None;
        };
        if told != played {
            return Some(Apart {
                turn,
                told: *told,
                played: *played,
            });
        }
        turn += 1;
        rest = more;
        other = others;
    }
    None
}
