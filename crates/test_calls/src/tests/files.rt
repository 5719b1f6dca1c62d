//! Whole files and texts that come through in many short moves, over shelves and sinks each of whose calls fails in turn.

use crate::tests::slow::{SlowShelf, SlowSink};
use sim_store::{
    Counts, Failed, MemShelf, MemSink, Shelf, ShelfFault, Sink, StoreFault, read_file, write_file,
    write_out,
};
use std::alloc::Global;
use std::test::Fail;

// A shelf with two files, whose made files have room for four bytes.
fn two_files(alloc: Global) -> Result<MemShelf, Fail> {
    let mut shelf = MemShelf::new(alloc, 4)?;
    shelf.put("greeting", b"hello")?;
    shelf.put("nothing", b"")?;
    Ok(shelf)
}

fn slow_files(alloc: Global) -> Result<SlowShelf, Fail> {
    Ok(SlowShelf {
        shelf: two_files(alloc)?,
    })
}

fn is_held(shelf: &MemShelf, name: &str, bytes: &[u8]) -> bool {
    shelf.held(name) == Some(bytes)
}

// Opening, three moves of at most two bytes and the end are five calls.
#[test]
fn each_failed_call_of_reading_is_a_read_fault(rt: HostRuntime) -> Result<(), Fail> {
    let alloc = rt.alloc();
    for call in 1..=6 {
        let mut slow = slow_files(alloc)?;
        slow.shelf.fail_at(call)?;
        let bytes = read_file(alloc, &mut slow, "greeting");
        let wanted = if call < 6 {
            Err(StoreFault::ReadFault)
        } else {
            Ok(b"hello".as_slice())
        };
        let answer = bytes.as_deref().map_err(|fault| *fault);
        assert_eq!(rt; answer, wanted, "at {call}");
        assert_eq!(rt; slow.shelf.calls(), call.min(5), "at {call}");
    }
    assert_eq!(rt;
        read_file(alloc, &mut two_files(alloc)?, "missing").err(),
        Some(StoreFault::NoFile)
    );
    Ok(())
}

// Making, two moves of two bytes each and closing. What the name held before stands until the file is made.
#[test]
fn each_failed_call_of_writing_is_a_write_fault(rt: HostRuntime) -> Result<(), Fail> {
    let fault = Err(StoreFault::WriteFault);
    let cases = [
        (1, fault, "hello"),
        (2, fault, ""),
        (3, fault, "fo"),
        (4, fault, "four"),
        (5, Ok(()), "four"),
    ];
    for (call, wanted, held) in cases {
        let mut slow = slow_files(rt.alloc())?;
        slow.shelf.fail_at(call)?;
        let answer = write_file(&mut slow, "greeting", b"four");
        assert_eq!(rt; answer, wanted, "at {call}");
        assert!(rt;
            is_held(&slow.shelf, "greeting", held.as_bytes()),
            "at {call}"
        );
        assert!(rt; is_held(&slow.shelf, "nothing", b""), "at {call}");
    }
    Ok(())
}

#[test]
fn each_failed_write_of_a_text_is_a_write_fault(rt: HostRuntime) -> Result<(), Fail> {
    let fault = Err(StoreFault::WriteFault);
    let cases = [
        (1, fault, ""),
        (2, fault, "he"),
        (3, fault, "hell"),
        (4, Ok(()), "hello"),
    ];
    for (call, wanted, told) in cases {
        let mut slow = SlowSink {
            sink: MemSink::new(rt.alloc(), 10)?,
        };
        slow.sink.fail_at(call)?;
        assert_eq!(rt; write_out(&mut slow, b"hello"), wanted, "at {call}");
        assert_eq!(rt; slow.sink.told(), told.as_bytes(), "at {call}");
        assert_eq!(rt; slow.sink.calls(), call.min(3), "at {call}");
    }
    Ok(())
}

#[test]
fn all_listed_calls_fail_and_no_others(rt: HostRuntime) -> Result<(), Fail> {
    let mut shelf = two_files(rt.alloc())?;
    let mut sink = MemSink::new(rt.alloc(), 9)?;
    for call in [4, 2] {
        shelf.fail_at(call)?;
        sink.fail_at(call)?;
    }
    for call in 1..=5 {
        let opened = shelf.open("greeting");
        let written = sink.write(b"x");
        let (open, write) = if call == 2 || call == 4 {
            (Err(ShelfFault::Failed), Err(Failed))
        } else {
            (Ok(true), Ok(1))
        };
        assert_eq!(rt; opened, open, "at {call}");
        assert_eq!(rt; written, write, "at {call}");
    }
    Ok(())
}

#[test]
fn a_made_file_holds_what_was_written_up_to_its_room(rt: HostRuntime) -> Result<(), Fail> {
    let mut shelf = two_files(rt.alloc())?;
    shelf.make("greeting")?;
    assert!(rt; is_held(&shelf, "greeting", b""));
    assert_eq!(rt; shelf.write(b"hey"), Ok(3));
    assert_eq!(rt; shelf.write(b"you"), Err(Failed));
    assert_eq!(rt; shelf.close(), Ok(()));
    assert!(rt; is_held(&shelf, "greeting", b"hey"));
    assert!(rt; shelf.held("missing").is_none());
    Ok(())
}

#[test]
fn counts_stand_still_at_their_last_value(rt: HostRuntime) {
    for (before, after) in [(0, 1), (u64::MAX - 1, u64::MAX), (u64::MAX, u64::MAX)] {
        let all = |count| Counts {
            given: count,
            misses: count,
            read_faults: count,
            write_faults: count,
        };
        let mut counts = all(before);
        counts.add_given(1);
        counts.add_miss();
        counts.add_read_fault();
        counts.add_write_fault();
        assert_eq!(rt; counts, all(after), "after {before}");
    }
}
