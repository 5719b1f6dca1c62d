//! Numbers as bytes, and bytes as text.

use sim_bytes::{
    ByteSink, Comparing, Short, Take, push_hex, put_i32, put_u8, put_u16, put_u32, put_u64,
    read_hex, tell_i32, tell_u8, tell_u16, tell_u32, tell_u64,
};
use std::test::Fail;

const SPELLED: [u8; 19] = [
    0xA1, 0xB1, 0xB2, 0xC1, 0xC2, 0xC3, 0xC4, 8, 7, 6, 5, 4, 3, 2, 1, 0xFE, 0xFF, 0xFF, 0xFF,
];

#[test]
fn numbers_are_put_with_the_lowest_byte_first(rt: HostRuntime) -> Result<(), Fail> {
    let mut out = Vec::new(rt.alloc());
    put_u8(&mut out, 0xA1)?;
    put_u16(&mut out, 0xB2B1)?;
    put_u32(&mut out, 0xC4C3_C2C1)?;
    put_u64(&mut out, 0x0102_0304_0506_0708)?;
    put_i32(&mut out, -2)?;
    assert_eq!(rt; out.as_slice(), SPELLED.as_slice());
    Ok(())
}

#[test]
fn numbers_are_told_to_a_list(rt: HostRuntime) -> Result<(), Fail> {
    let mut out = Vec::new(rt.alloc());
    tell_u8(&mut out, 0xA1)?;
    tell_u16(&mut out, 0xB2B1)?;
    tell_u32(&mut out, 0xC4C3_C2C1)?;
    tell_u64(&mut out, 0x0102_0304_0506_0708)?;
    tell_i32(&mut out, -2)?;
    assert_eq!(rt; out.as_slice(), SPELLED.as_slice());
    Ok(())
}

#[test]
fn numbers_are_taken_in_order(rt: HostRuntime) {
    let mut take = Take::new(&SPELLED);
    assert_eq!(rt; take.u8(), Ok(0xA1));
    assert_eq!(rt; take.u16(), Ok(0xB2B1));
    assert_eq!(rt; take.u32(), Ok(0xC4C3_C2C1));
    let mut other = take.fork();
    assert_eq!(rt; take.u64(), Ok(0x0102_0304_0506_0708));
    assert_eq!(rt; take.left(), 4);
    assert_eq!(rt; take.u64(), Err(Short));
    assert_eq!(rt; take.i32(), Ok(-2));
    assert_eq!(rt; take.u8(), Err(Short));
    assert_eq!(rt; other.u8(), Ok(8));
    assert_eq!(rt; other.bytes().len(), 11);
}

#[test]
fn bytes_are_text_and_back(rt: HostRuntime) -> Result<(), Fail> {
    let mut out = String::from_str(rt.alloc(), "id ")?;
    push_hex(&mut out, &[0, 0x09, 0xA0, 0xFF])?;
    assert_eq!(rt; out.as_str(), "id 0009a0ff");
    let read = read_hex(rt.alloc(), "0009a0ff")?.ok_or("no bytes")?;
    assert_eq!(rt; read.as_slice(), [0, 0x09, 0xA0, 0xFF].as_slice());
    for text in ["0", "0A", "0g", "/0", "`0", "é"] {
        assert!(rt; read_hex(rt.alloc(), text)?.is_none(), "{text} is read");
    }
    Ok(())
}

// Whether what is told to a comparison with the first bytes, in two pieces, is the same.
fn is_told(wanted: &[u8], first: &[u8], second: &[u8]) -> bool {
    let mut comparing = Comparing::new(wanted);
    match comparing.tell(first) {
        Ok(()) => {}
        Err(never) => match never {},
    }
    match comparing.tell(second) {
        Ok(()) => comparing.is_same(),
        Err(never) => match never {},
    }
}

#[test]
fn a_comparison_holds_for_just_the_wanted_bytes(rt: HostRuntime) {
    assert!(rt; is_told(&[1, 2, 3], &[1, 2], &[3]));
    assert!(rt; !is_told(&[1, 2, 3], &[1, 2], &[]));
    assert!(rt; !is_told(&[1, 2, 3], &[1, 2], &[3, 4]));
    assert!(rt; !is_told(&[1, 2, 3], &[1, 3], &[3]));
}
