//! Food and metal that something costs or brings.

ghost use Rattle.std.specs.Prelude.{◌≡◌};
ghost use Rattle.sim_stock.specs.Economies.{rate_at as rate_in};

use sim_base::Items;

/// Food and metal: a price, or what an entity brings in a turn.
#[derive(Clone, Copy, Debug, PartialEq, Eq)]
pub struct Rate {
    pub food: u64,
    pub metal: u64,
}

/// One rate for each template of a match, in their order.
pub type Rates = Items<Rate>;

/// The rate in this place, or nothing of either good behind the last.
pub fn rate_at(rates: &[Rate], place: usize) -> Rate
    ensures { result ≡ rate_in rates.now place }
{
    match rates.get(place) {
        Some(rate) => *rate,
        None => Rate { food: 0, metal: 0 },
    }
}
