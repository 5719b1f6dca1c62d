//! Code 3 at the keys `cap`, `delay`, `turns` and `seed`.

ghost use Rattle.std.specs.Prelude.{IfOk, ◌≢◌, ◌≤◌};
ghost use Rattle.sim_setup.specs.{Common.view, Setups.Meets, Setups.rules_in as rules_in_data};

use crate::fault::SetupFault;
use serde_json::Value;
use sim_base::MAX_ROWS;
use sim_json::natural_at;

const MAX_SEED: u64 = 0xFFFF_FFFF_FFFF;

/// The numbers that rule a match, as a setup has them.
#[derive(Clone, Copy, Debug, PartialEq, Eq)]
pub struct Rules {
    pub cap: u16,
    pub delay: u8,
    pub turns: u32,
    pub seed: u64,
}

/// The rules, or the refusal of the key that is past its limits.
pub fn rules_in(value: &Value) -> Result<Rules, SetupFault>
    ensures value { Meets result (rules_in_data (view value.now)) }
    ensures memory { result ≢ Err SetupFault.OutOfMemory }
    ensures turns { IfOk result (λ rules. rules.turns ≤ 65535) }
{
    let Some(cap) = natural_at(value, 0, MAX_ROWS as u64, "cap") else {
        return Err(SetupFault::Refused { code: 3, index: 3 });
    };
    let Some(delay) = natural_at(value, 1, 8, "delay") else {
        return Err(SetupFault::Refused { code: 3, index: 4 });
    };
    let Some(turns) = natural_at(value, 0, 65_535, "turns") else {
        return Err(SetupFault::Refused { code: 3, index: 5 });
    };
    let Some(seed) = natural_at(value, 0, MAX_SEED, "seed") else {
        return Err(SetupFault::Refused { code: 3, index: 6 });
    };
    Ok(Rules {
        cap: cap as u16,
        delay: delay as u8,
        turns: turns as u32,
        seed,
    })
}
