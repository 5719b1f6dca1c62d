//! The first part and the last part of a paid turn: deeds, which players do before they command, and the income.

ghost use Rattle.std.specs.Prelude.{All, length, ◌*◌, ◌+◌, ◌<◌, ◌^◌, ◌≡◌, ◌≤◌};
ghost use Rattle.sim_stock.specs.PaidTurns.{AreLeft, brought, collected, dealt, deed as deed_of, IsDatedDeed};
ghost use Rattle.{sim_base.specs.declared.state.Row.Row as AnyRow, sim_stock.specs.Economies.IsRate, sim_stock.specs.Economies.total};

use crate::rate::rate_at;
use crate::{DatedDeed, DeedTable, Rate, Stocks};
use sim_base::Row;

/// Players do these deeds, one after the other.
pub fn deal(table: &DeedTable, deeds: &[DatedDeed], stocks: &mut Stocks)
    requires deeds { All IsDatedDeed deeds.now }
    requires total { total stocks.old < 2 ^ 40 }
    ensures { AreLeft (dealt stocks.old deeds.now) stocks.old stocks.new }
{
    for dated in deeds {
        act(table, dated, stocks);
    }
}

// A player does a deed.
fn act(table: &DeedTable, dated: &DatedDeed, stocks: &mut Stocks)
    requires dated { IsDatedDeed dated.now }
    requires total { total stocks.old < 2 ^ 40 }
    ensures { AreLeft (deed_of stocks.old dated.now.player dated.now.deed) stocks.old stocks.new }
{
    *stocks = table.after(stocks, dated.player, &dated.deed);
}

/// Each row of a player brings him the income of its template.
pub fn collect(rows: &[Row], income: &[Rate], stocks: &mut Stocks)
    requires owners { All (λ (row : AnyRow). row.owner ≤ 8) rows.now }
    requires income { All (IsRate 1000) income.now }
    requires total { total stocks.old + 2000 * length rows.now < 2 ^ 40 }
    ensures stocks { stocks.new ≡ collected income.now stocks.old rows.now }
    ensures total { total stocks.new ≤ total stocks.old + 2000 * length rows.now }
{
    for row in rows {
        bring(row, income, stocks);
    }
}

// A row brings its owner an income, if he is a player.
fn bring(row: &Row, income: &[Rate], stocks: &mut Stocks)
    requires owner { row.now.owner ≤ 8 }
    requires income { All (IsRate 1000) income.now }
    requires total { total stocks.old < 2 ^ 40 }
    ensures stocks { stocks.new ≡ brought income.now stocks.old row.now }
    ensures total { total stocks.new ≤ total stocks.old + 2000 }
{
    if row.owner == 0 {
        return;
    }
    let rate = rate_at(income, usize::from(row.template));
    stocks.earn(row.owner, &rate);
}
