//! The four counts of a shelf. They stand apart since every shelf keeps the same four and moves them alike, and since a
//! caller who is told of a fault, of a missing name or of too many bytes can find the cause in them.

ghost use Rattle.std.specs.Prelude.{◌≡◌};
ghost use Rattle.sim_store.specs.Shelf.{after_giving, after_miss, after_read_fault, after_write_fault, raised};

/// What a shelf has done since it was made. A count never falls, and stands still at the last value of its type.
#[derive(Clone, Copy, Debug, Default, PartialEq, Eq)]
pub struct Counts {
    /// The bytes handed out.
    pub given: u64,
    /// The names that were not found.
    pub misses: u64,
    /// The times that opening or reading failed.
    pub read_faults: u64,
    /// The times that making, writing or closing failed.
    pub write_faults: u64,
}

impl Counts {
    /// Counts bytes that were handed out.
    pub fn add_given(&mut self, bytes: usize)
        ensures { self.new ≡ after_giving bytes self.old }
    {
        self.given = self.given.saturating_add(bytes as u64);
    }

    /// Counts a name that was not found.
    pub fn add_miss(&mut self)
        ensures { self.new ≡ after_miss self.old }
    {
        self.misses = one_more(self.misses);
    }

    /// Counts a failure of opening or reading.
    pub fn add_read_fault(&mut self)
        ensures { self.new ≡ after_read_fault self.old }
    {
        self.read_faults = one_more(self.read_faults);
    }

    /// Counts a failure of making, writing or closing.
    pub fn add_write_fault(&mut self)
        ensures { self.new ≡ after_write_fault self.old }
    {
        self.write_faults = one_more(self.write_faults);
    }
}

/// The count after one thing more, as a sink counts its faults.
pub fn one_more(count: u64) -> u64
    ensures { result ≡ raised 1 count }
{
    count.saturating_add(1)
}
