//! The table of the stored handlers of deeds, each beside the fact that it does what its kind of deed says.

ghost use Rattle.std.specs.Prelude.{count_by, ℕ, ◌<◌, ◌==◌, ◌≡◌, ◌≤◌};
ghost use Rattle.sim_stock.specs.PaidTurns.{deed as deed_of, IsAsked, kind_of as kind_by};

use crate::{Deed, Stocks};

/// A handler as it is stored: of stocks, a player and his deed.
pub type DeedFunction = Box<dyn Fn(&Stocks, u8, &Deed) -> Stocks>;

/// A handler for the deeds of a kind. It may be called with each deed of that kind, and answers the stocks after it.
#[derive(Drop)]
pub struct DeedHandler {
    pub kind: u8,
    pub run: DeedFunction,
    ghost may_run: { (stocks : _) (player : _) (deed : _) → IsAsked kind stocks.now player deed.now → pre run stocks player deed },
    ghost answers: { (stocks : _) (player : _) (deed : _) (result : _)
        → IsAsked kind stocks.now player deed.now
        → post run stocks player deed result
        → result ≡ deed_of stocks.now player deed.now },
}

impl DeedHandler {
    // The stocks after a deed of its kind.
    fn after(&self, stocks: &Stocks, player: u8, deed: &Deed) -> Stocks
        requires { IsAsked self.now.kind stocks.now player deed.now }
        ensures { result ≡ deed_of stocks.now player deed.now }
    {
        (self.run)(stocks, player, deed)
    }
}

/// A handler for each kind of deed.
#[derive(Drop)]
pub struct DeedTable {
    handlers: Vec<DeedHandler>,
    ghost once: { (kind : ℕ) → 0 < kind → kind ≤ 2 → count_by (λ handler. handler.kind == kind) handlers.items ≡ 1 },
}

impl DeedTable {
    /// The table of these handlers, of which each kind from 1 to 2 stands once.
    pub fn new(handlers: Vec<DeedHandler>) -> DeedTable
        requires { (kind : ℕ) → 0 < kind → kind ≤ 2 → count_by (λ handler. handler.kind == kind) handlers.items ≡ 1 }
        ensures { result.handlers ≡ handlers }
    {
        DeedTable { handlers }
    }

    /// The stocks after a deed.
    pub fn after(&self, stocks: &Stocks, player: u8, deed: &Deed) -> Stocks
        requires { IsAsked (kind_by deed.now) stocks.now player deed.now }
        ensures { result ≡ deed_of stocks.now player deed.now }
    {
        let kind = deed.kind();
        let mut rest = self.handlers.as_slice();
        while let [handler, more @ ..] = rest {
            if handler.kind == kind {
                return handler.after(stocks, player, deed);
            }
            rest = more;
        }
        unreachable!()
    }
}
