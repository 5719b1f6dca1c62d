//! Writing a whole text and a whole file, over any sink and shelf. A shelf and a sink may take a piece in parts; here
//! the parts are put together, so that nobody else has to.

ghost use Rattle.sim_store.specs.{Reading.{FileCauses, FileMeets, Fills, IsFilled, OutCauses, OutMeets}, Shelf.{HeldEmpty, KeepsReading, WriteCounts}};
ghost use Rattle.std.specs.Prelude.{false, IsTrue, ◌≡◌};

use crate::{Failed, Shelf, ShelfFault, Sink, StoreFault};

/// Writes all the bytes to the sink. It takes no memory.
pub fn write_out<K: Sink>(sink: &mut K, bytes: &[u8]) -> Result<(), StoreFault>
    ensures told { OutMeets result bytes.now (K.told sink.old) (K.told sink.new) }
    ensures causes { OutCauses result (K.faults sink.old) (K.faults sink.new) }
{
    let mut done = 0;
    while done < bytes.len() {
        let Ok(count) = sink.write(&bytes[done..]) else {
            return Err(StoreFault::WriteFault);
        };
        done += count;
    }
    Ok(())
}

/// Makes a file of this name with these bytes, in place of what the name held. It takes no memory but the shelf's own.
pub fn write_file<S: Shelf>(shelf: &mut S, name: &str, bytes: &[u8]) -> Result<(), StoreFault>
    ensures held { FileMeets result name.now bytes.now (S.held shelf.old) (S.held shelf.new) }
    ensures causes { FileCauses result (S.counts shelf.old) (S.counts shelf.new) }
    ensures making { S.is_making shelf.new ≡ false }
    ensures reading { KeepsReading S.is_open S.rest shelf.old shelf.new }
{
    match shelf.make(name) {
        Ok(()) => {}
        Err(ShelfFault::Failed) => return Err(StoreFault::WriteFault),
        Err(ShelfFault::OutOfMemory) => return Err(StoreFault::OutOfMemory),
    }
    let filled = fill(shelf, bytes);
    let closed = shelf.close();
    match (filled, closed) {
        (Ok(()), Ok(())) => Ok(()),
        _ => Err(StoreFault::WriteFault),
    }
}

// Adds all the bytes to the file that is being made and is empty yet.
fn fill<S: Shelf>(shelf: &mut S, bytes: &[u8]) -> Result<(), Failed>
    requires making { IsTrue (S.is_making shelf.old) }
    requires empty { HeldEmpty (S.made_name shelf.old) (S.held shelf.old) }
    ensures held { Fills result (S.made_name shelf.old) bytes.now (S.held shelf.old) (S.held shelf.new) }
    ensures made { IsFilled result bytes.now (S.made shelf.old) (S.made shelf.new) }
    ensures counts { WriteCounts result (S.counts shelf.old) (S.counts shelf.new) }
    ensures making { IsTrue (S.is_making shelf.new) }
    ensures name { S.made_name shelf.new ≡ S.made_name shelf.old }
    ensures reading { KeepsReading S.is_open S.rest shelf.old shelf.new }
{
    let mut done = 0;
    while done < bytes.len() {
        done += shelf.write(&bytes[done..])?;
    }
    Ok(())
}
