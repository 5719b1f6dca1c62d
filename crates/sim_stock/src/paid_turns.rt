//! A turn in which what players make has a price.

ghost use Rattle.std.specs.Prelude.{OnOk, ◌≡◌};
ghost use Rattle.sim_stock.specs.PaidTurns.{MaySettle, PaysTo, SettlesTo, books_of, kept_in, paid_turn as paid_turn_by, settled};
ghost use Rattle.{sim_base.specs.Turn.turn as turn_by, sim_board.specs.Boards.setup_in, sim_board.specs.Boards.state_in, sim_stock.specs.PaidTurns.MayPay};

use crate::dealing::{collect, deal};
use crate::due::due_at;
use crate::{Market, Stocks};
use sim_base::{OutOfMemory, PlayerCommand};
use sim_board::Board;
use sim_system::System;
use sim_turn::run_phases;

impl Market<'_> {
    /// Plays a turn with these commands, each of a player of the match, of which those are left out that their players can't
    /// pay. After an error the board may only be finished, and the stocks are of no use.
    pub fn paid_turn(
        &self,
        board: &mut Board<'_>,
        stocks: &mut Stocks,
        commands: &[PlayerCommand],
    ) -> Result<(), OutOfMemory>
        requires { MayPay self.now.economy.now board.old stocks.old commands.now ⟦<dyn System as System>⟧ }
        ensures state { OnOk result (state_in board.new ≡ turn_by (setup_in board.old) (state_in board.old)
            (kept_in (setup_in board.old) self.now.economy.now (books_of (state_in board.old) stocks.old) commands.now)) }
        ensures pays { PaysTo result (paid_turn_by (setup_in board.old) self.now.economy.now (books_of (state_in board.old) stocks.old) commands.now)
            board.old board.new stocks.old stocks.new ⟦<dyn System as System>⟧ }
    {
        let turn = board.scene().state.turn + 1;
        let dated = self.economy.deeds.as_slice();
        let due = due_at(dated, turn);
        deal(self.deeds, due, stocks);
        self.serve_all(board, stocks, commands)?;
        self.settle(board, stocks)
    }

    // The rest of the turn, and then the income.
    fn settle(&self, board: &mut Board<'_>, stocks: &mut Stocks) -> Result<(), OutOfMemory>
        requires { MaySettle self.now.economy.now board.old stocks.old ⟦<dyn System as System>⟧ }
        ensures { SettlesTo result (settled (setup_in board.old) self.now.economy.now (books_of (state_in board.old) stocks.old))
            board.old board.new stocks.old stocks.new ⟦<dyn System as System>⟧ }
    {
        run_phases(self.alloc, board)?;
        let rows = board.scene().state.rows.as_slice();
        let income = self.economy.income.as_slice();
        collect(rows, income, stocks);
        Ok(())
    }
}
