//! The influence of each player at each cell, in one list: by player, then by z, then by x.

ghost use Rattle.std.specs.Prelude.{◌≡◌, ◌*◌, ◌≤◌, vec_len};

use crate::building::Building;
use crate::changes::moved;
use sim_base::{Cell, Global, OutOfMemory, Setup};
use sim_trail::{Mark, Shift};

/// The influences of the players of a ground, from player 1 on.
#[derive(Drop)]
pub struct Sums {
    pub width: u16,
    pub depth: u16,
    pub players: u8,
    pub items: Vec<u32>,
    ghost narrow: { width ≤ 256 },
    ghost shallow: { depth ≤ 256 },
    ghost few: { players ≤ 8 },
    ghost full: { vec_len items ≡ players * (width * depth) },
}

impl Sums {
    ghost use Rattle.sim_territory.specs.{Buildings.share_of, Common.{IsOnGround, place_of}, Holders.{AreFound, AreFoundNear, AreHolders, holder_by}};
    ghost use Rattle.sim_territory.specs.{Holders.IsBlockOf, Tables.{AreShifted, FitShifts, FitsShift, in_part, IsEntityOf, IsPlaceIn, IsShifted, MayShiftRow}};
    ghost use Rattle.sim_territory.specs.Tables.{MaySumsMove, share_by, share_where, size_in, sum_at, sum_place, SumsMove};
    ghost use Rattle.std.specs.Prelude.{IfOk, replicate, slice_range, ◌*◌, ◌+◌, ◌-◌, ◌<◌, ◌==◌, ◌≡◌, ◌≤◌};

    /// Nobody has influence anywhere.
    pub fn new(alloc: Global, width: u16, depth: u16, players: u8) -> Result<Sums, OutOfMemory>
        requires narrow { width ≤ 256 }
        requires shallow { depth ≤ 256 }
        requires few { players ≤ 8 }
        ensures size { IfOk result (λ sums. size_in sums ≡ record { width = width; depth = depth }) }
        ensures players { IfOk result (λ sums. sums.players ≡ players) }
        ensures items { IfOk result (λ sums. sums.items.items ≡ replicate (players * (width * depth)) 0) }
    {
        let cells = usize::from(width) * usize::from(depth);
        let items = vec![in alloc; 0u32; usize::from(players) * cells]?;
        Ok(Sums {
            width,
            depth,
            players,
            items,
        })
    }

    // How many cells the ground has.
    fn cells(&self) -> usize
        ensures { result ≡ self.now.width * self.now.depth }
    {
        usize::from(self.width) * usize::from(self.depth)
    }

    /// Where a cell stands in a list by z, then x.
    pub fn cell_place(&self, cell: Cell) -> usize
        requires { IsOnGround (size_in self.now) cell }
        ensures place { result ≡ place_of (size_in self.now) cell }
        ensures below { result < self.now.width * self.now.depth }
    {
        usize::from(cell.z) * usize::from(self.width) + usize::from(cell.x)
    }

    // Where the influence of a player at a cell stands.
    fn place(&self, player: u8, cell: Cell) -> usize
        requires { IsPlaceIn self.now player cell }
        ensures place { result ≡ sum_place (size_in self.now) player cell }
        ensures below { result < vec_len self.now.items }
    {
        usize::from(player - 1) * self.cells() + self.cell_place(cell)
    }

    /// The influence of a player at a cell.
    pub fn at(&self, player: u8, cell: Cell) -> u32
        requires { IsPlaceIn self.now player cell }
        ensures { result ≡ sum_at self.now player cell }
    {
        self.items[self.place(player, cell)]
    }

    /// Who holds a cell: the least player of those with the greatest influence above 0, or 0.
    pub fn holder(&self, cell: Cell) -> u8
        requires { IsOnGround (size_in self.now) cell }
        ensures { result ≡ holder_by self.now.players (λ player. sum_at self.now player cell) }
    {
        let mut holder = 0;
        let mut most = 0;
        for player in 1..self.players + 1 {
            let influence = self.at(player, cell);
            if influence > most {
                holder = player;
                most = influence;
            }
        }
        holder
    }

    // Finds who holds the cells of a row within the columns, from the first to before the end.
    fn find_row(&self, holders: &mut Vec<u8>, columns: (u16, u16), z: u16)
        requires { IsBlockOf self.now holders.old columns (z, z + 1) }
        ensures { AreFound self.now columns (z, z + 1) holders.old.items holders.new.items }
    {
        for x in columns.0..columns.1 {
            let cell = Cell { x, z };
            let place = self.cell_place(cell);
            holders[place] = self.holder(cell);
        }
    }

    // Finds who holds the cells within the columns and the rows, each from the first to before the end.
    fn find_holders(&self, holders: &mut Vec<u8>, columns: (u16, u16), rows: (u16, u16))
        requires { IsBlockOf self.now holders.old columns rows }
        ensures { AreFound self.now columns rows holders.old.items holders.new.items }
    {
        for z in rows.0..rows.1 {
            self.find_row(holders, columns, z);
        }
    }

    /// Finds who holds each cell.
    pub fn find_all(&self, holders: &mut Vec<u8>)
        requires { vec_len holders.old ≡ self.now.width * self.now.depth }
        ensures { AreHolders self.now holders.new.items }
    {
        self.find_holders(holders, (0, self.width), (0, self.depth));
    }

    /// Finds who holds the cells where an entity may give something.
    pub fn find_near(&self, holders: &mut Vec<u8>, setup: &Setup, mark: &Mark)
        requires full { vec_len holders.old ≡ self.now.width * self.now.depth }
        requires entity { IsEntityOf setup.now mark.now self.now }
        ensures { AreFoundNear setup.now mark.now self.now holders.old.items holders.new.items }
    {
        if let Some(building) = Building::of(setup, mark) {
            let columns = building.columns(self.width);
            self.find_holders(holders, columns, building.rows(self.depth));
        }
    }

    /// Lends the influences of a player, by z, then x.
    pub fn layer(&self, player: u8) -> &[u32]
        requires least { 1 ≤ player }
        requires most { player ≤ self.now.players }
        ensures { let cells = self.now.width * self.now.depth in result.now ≡ slice_range self.now.items.items ((player - 1) * cells) (player * cells) }
    {
        let cells = self.cells();
        let first = usize::from(player - 1) * cells;
        &self.items.as_slice()[first..first + cells]
    }

    // A building comes or goes at the cells of a row to the west of its own column, from a column on.
    fn shift_west(&mut self, building: &Building, z: u16, west: u16, comes: bool)
        requires may { MayShiftRow comes building.now z (in_part z west building.now.cell.x) self.old }
        requires order { west ≤ building.now.cell.x }
        ensures { SumsMove comes (share_where (in_part z west building.now.cell.x) building.now) self.old self.new }
    {
        let it = *building;
        let first = self.place(it.owner, Cell { x: 0, z });
        let across = u32::from(it.cell.z.abs_diff(z));
        for x in west..it.cell.x {
            let place = first + usize::from(x);
            let along = u32::from(it.cell.x - x);
            let strength = it.strength(along, across);
            self.items[place] = moved(self.items[place], strength, comes);
        }
    }

    // A building comes or goes at the cells of a row from its own column on, to before a column.
    fn shift_east(&mut self, building: &Building, z: u16, east: u16, comes: bool)
        requires may { MayShiftRow comes building.now z (in_part z building.now.cell.x east) self.old }
        requires order { building.now.cell.x ≤ east }
        requires most { east ≤ self.old.width }
        ensures { SumsMove comes (share_where (in_part z building.now.cell.x east) building.now) self.old self.new }
    {
        let it = *building;
        let first = self.place(it.owner, Cell { x: 0, z });
        let across = u32::from(it.cell.z.abs_diff(z));
        for x in it.cell.x..east {
            let place = first + usize::from(x);
            let along = u32::from(x - it.cell.x);
            let strength = it.strength(along, across);
            self.items[place] = moved(self.items[place], strength, comes);
        }
    }

    // A building comes or goes at the cells of a row.
    fn shift_row(&mut self, building: &Building, z: u16, comes: bool)
        requires { MayShiftRow comes building.now z (λ c. c.z == z) self.old }
        ensures { SumsMove comes (share_where (λ c. c.z == z) building.now) self.old self.new }
    {
        let (west, east) = building.columns_of(z, self.width);
        self.shift_west(building, z, west, comes);
        self.shift_east(building, z, east, comes);
    }

    // A building comes or goes.
    fn shift_building(&mut self, building: &Building, comes: bool)
        requires place { IsPlaceIn self.old building.now.owner building.now.cell }
        requires may { MaySumsMove comes (share_of building.now) self.old }
        ensures { SumsMove comes (share_of building.now) self.old self.new }
    {
        let (south, north) = building.rows(self.depth);
        for z in south..north {
            self.shift_row(building, z, comes);
        }
    }

    // An entity comes or goes.
    fn shift_mark(&mut self, setup: &Setup, mark: &Mark, comes: bool)
        requires entity { IsEntityOf setup.now mark.now self.old }
        requires may { MaySumsMove comes (share_by setup.now mark.now) self.old }
        ensures { SumsMove comes (share_by setup.now mark.now) self.old self.new }
    {
        if let Some(building) = Building::of(setup, mark) {
            self.shift_building(&building, comes);
        }
    }

    /// Follows one shift.
    pub fn shift(&mut self, setup: &Setup, shift: &Shift)
        requires { FitsShift setup.now shift.now self.old }
        ensures { IsShifted setup.now shift.now self.old self.new }
    {
        match shift {
            Shift::Gone { mark } => self.shift_mark(setup, mark, false),
            Shift::Born { mark } => self.shift_mark(setup, mark, true),
        }
    }

    /// Follows the shifts of a trail.
    pub fn follow(&mut self, setup: &Setup, shifts: &[Shift])
        requires { FitShifts setup.now shifts.now self.old }
        ensures { AreShifted setup.now shifts.now self.old self.new }
    {
        for shift in shifts {
            self.shift(setup, shift);
        }
    }
}
