//! The second part of a paid turn: each command is obeyed and, where it made an entity, paid for; or it is left out.

ghost use Rattle.std.specs.Prelude.{fold, if◌then◌else◌, OnOk, true, ◌≡◌, ◌≤◌};
ghost use Rattle.sim_stock.specs.PaidTurns.{affords, AreLeft, books_of, CanPay, made_row, obeyed, paid, ServesTo};
ghost use Rattle.sim_turn.specs.Turns.{GoesOnTo, MayObey, MayObeyAll};
ghost use Rattle.{sim_base.specs.Commands.commanded, sim_board.specs.Boards.setup_in, sim_board.specs.Boards.state_in, sim_stock.specs.Economies.total};

use crate::price::price_of;
use crate::{Market, Rate, Stocks};
use sim_base::{OutOfMemory, PlayerCommand};
use sim_board::Board;
use sim_system::System;
use sim_turn::obey;

impl Market<'_> {
    /// Each command is obeyed and paid for, or left out, in order.
    pub(crate) fn serve_all(
        &self,
        board: &mut Board<'_>,
        stocks: &mut Stocks,
        commands: &[PlayerCommand],
    ) -> Result<(), OutOfMemory>
        requires { MayObeyAll board.old commands.now ⟦<dyn System as System>⟧ }
        ensures { ServesTo result (fold (obeyed (setup_in board.old) self.now.economy.now.prices) (books_of (state_in board.old) stocks.old) commands.now)
            board.old board.new stocks.old stocks.new ⟦<dyn System as System>⟧ }
    {
        for order in commands {
            self.serve(board, stocks, order)?;
        }
        Ok(())
    }

    // A command is obeyed and paid for where its player can pay its price, or left out.
    fn serve(
        &self,
        board: &mut Board<'_>,
        stocks: &mut Stocks,
        order: &PlayerCommand,
    ) -> Result<(), OutOfMemory>
        requires { MayObey board.old order.now ⟦<dyn System as System>⟧ }
        ensures { ServesTo result (obeyed (setup_in board.old) self.now.economy.now.prices (books_of (state_in board.old) stocks.old) order.now)
            board.old board.new stocks.old stocks.new ⟦<dyn System as System>⟧ }
    {
        let prices = self.economy.prices.as_slice();
        let price = price_of(prices, &order.command);
        if stocks.affords(order.player, &price) {
            return self.sell(board, stocks, order, &price);
        }
        Ok(())
    }

    // A command is obeyed, and paid for where it made an entity.
    fn sell(
        &self,
        board: &mut Board<'_>,
        stocks: &mut Stocks,
        order: &PlayerCommand,
        price: &Rate,
    ) -> Result<(), OutOfMemory>
        requires obeys { MayObey board.old order.now ⟦<dyn System as System>⟧ }
        requires enough { affords order.now.player price.now stocks.old ≡ true }
        ensures goes { GoesOnTo result (commanded (setup_in board.old) (state_in board.old) order.now) board.old board.new ⟦<dyn System as System>⟧ }
        ensures stocks { OnOk result (stocks.new ≡ (if made_row (state_in board.old) (state_in board.new) then paid order.now.player price.now stocks.old
            else stocks.old)) }
        ensures total { total stocks.new ≤ total stocks.old }
    {
        let before = board.scene().state.rows.as_slice().len();
        obey(self.alloc, board, self.orders, order)?;
        let after = board.scene().state.rows.as_slice().len();
        charge(stocks, order.player, price, before < after);
        Ok(())
    }
}

// A player pays a price where he made something.
#[tactic(auto, using(crate::proofs::Balances::paid_total))]
fn charge(stocks: &mut Stocks, player: u8, price: &Rate, made: bool)
    requires { CanPay player price.now stocks.old }
    ensures { AreLeft (if made then paid player price.now stocks.old else stocks.old) stocks.old stocks.new }
{
    if made {
        stocks.pay(player, price);
    }
}
