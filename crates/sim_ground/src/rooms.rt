//! The rooms of searches, and a ground that nobody uses now: what is kept from one use to the next. They stand in cells, since an ask only
//! reads the system: it takes them out, and puts them back for the next ask. Several grounds may share them, since all that is kept says
//! itself which ground it is of.

use crate::drawn::Drawn;
use sim_path::Searcher;
use std::cell::Cell;
use std::rc::Rc;

/// What rooms hold, as plain data, which can be kept where no room can.
#[derive(Drop)]
pub struct Contents {
    searcher: Option<Searcher>,
    drawn: Option<Drawn>,
}

impl Contents {
    /// Nothing yet.
    pub fn new() -> Contents {
        Contents {
            searcher: None,
            drawn: None,
        }
    }
}

/// The rooms of searches, and the ground that was cleared last.
#[derive(Drop)]
pub struct Rooms {
    searcher: Cell<Option<Searcher>>,
    drawn: Cell<Option<Drawn>>,
}

impl Rooms {
    /// Rooms that take no memory yet.
    pub fn new() -> Rooms {
        Rooms::of(Contents::new())
    }

    /// Rooms that hold what others held.
    pub fn of(contents: Contents) -> Rooms {
        let Contents { searcher, drawn } = contents;
        Rooms {
            searcher: Cell::new(searcher),
            drawn: Cell::new(drawn),
        }
    }

    /// Takes out all that they hold.
    pub fn empty(&self) -> Contents {
        Contents {
            searcher: self.searcher.replace(None),
            drawn: self.drawn.replace(None),
        }
    }

    /// Those of an earlier search, or new ones.
    pub fn take(&self) -> Searcher {
        match self.searcher.replace(None) {
            Some(searcher) => searcher,
            None => Searcher::new(),
        }
    }

    /// Keeps them for the next search.
    pub fn put(&self, searcher: Searcher) {
        self.searcher.set(Some(searcher));
    }

    /// Keeps a ground until one is drawn next, in place of the one that was kept.
    pub(crate) fn put_drawn(&self, drawn: Drawn) {
        self.drawn.set(Some(drawn));
    }

    /// The ground that was kept, if any.
    pub(crate) fn take_drawn(&self) -> Option<Drawn> {
        self.drawn.replace(None)
    }
}

/// Rooms of one ground, or those that several share.
#[derive(Drop)]
pub enum Lent {
    Own(Rooms),
    Shared(Rc<Rooms>),
}

impl Lent {
    /// The rooms.
    pub fn rooms(&self) -> &Rooms {
        match self {
            Lent::Own(rooms) => rooms,
            Lent::Shared(rooms) => rooms,
        }
    }
}
