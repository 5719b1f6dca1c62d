//! The line of what a player has in the end of a match with an economy.

ghost use Rattle.sim_report.specs.{Appending.Appends, Appending.AppendsInParts, Lines.stock_line};

use crate::line::append_number;
use sim_base::OutOfMemory;

/// Appends how much food and metal a player has, or leaves the text as it was.
pub fn push_stock(player: u8, food: u64, metal: u64, out: &mut String) -> Result<(), OutOfMemory>
    ensures { Appends result out.old out.new (stock_line player food metal) }
{
    let before = out.len();
    match append_stock(player, food, metal, out) {
        Ok(()) => Ok(()),
        Err(stop) => {
            out.truncate(before);
            Err(stop)
        }
    }
}

fn append_stock(player: u8, food: u64, metal: u64, out: &mut String) -> Result<(), OutOfMemory>
    ensures { AppendsInParts result out.old out.new (stock_line player food metal) }
{
    out.push_str("stock")?;
    append_number(u64::from(player), out)?;
    append_number(food, out)?;
    append_number(metal, out)?;
    out.push_str("\n")?;
    Ok(())
}
