//! What each player has in the end.

ghost use Rattle.std.specs.Prelude.{◌≡◌, ◌≤◌, ◌++◌, OnOk, string_bytes};
ghost use Rattle.sim_play.specs.Paid.{stock_lines};

use sim_base::OutOfMemory;
use sim_report::push_stock;
use sim_stock::{FOOD, METAL, Stocks};

/// Appends a line for each of so many players.
pub fn push_stocks(players: u8, stocks: &Stocks, out: &mut String) -> Result<(), OutOfMemory>
    requires { players ≤ 8 }
    ensures { OnOk result (string_bytes out.new ≡ string_bytes out.old ++ stock_lines players stocks.now) }
{
    for player in 1..players + 1 {
        let food = stocks.amount(player, FOOD);
        let metal = stocks.amount(player, METAL);
        push_stock(player, food, metal, out)?;
    }
    Ok(())
}
