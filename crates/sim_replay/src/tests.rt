//! A log of every kind of command with the extreme numbers, and what is refused of it at which line. The lines follow
//! from `docs/REPLAYS.md` alone.

use crate::{Log, LogFault, log_of, push_log};
use sim_base::{Global, Items, Land, Setup};
use std::test::Fail;

const WHOLE: &str = "simlog 1 30313233343536373839616263646566
turn 0 00000000000000000000000000000000
command turn 1 player 1 walk 2,4294967295,0 to -32768 32767.99999
command turn 1 player 2 stop -
command turn 1 player 1 attack 7 on 4294967295
command turn 1 player 1 delete 5,5
turn 1 ffffffffffffffffffffffffffffffff
command turn 2 player 2 place 65535 at 0.00002 -4.50000
command turn 2 player 2 train 0 65535
command turn 2 player 2 resign
turn 2 0123456789abcdef0123456789abcdef
";

// A match of two players and two turns.
fn match_of(alloc: Global) -> Setup {
    Setup {
        id: *b"0123456789abcdef",
        land: Land {
            width: 4,
            depth: 4,
            closed: Items::new(alloc),
            masks: Items::new(alloc),
        },
        players: 2,
        cap: 0,
        delay: 1,
        turns: 2,
        seed: 0,
        templates: Items::new(alloc),
        first: Items::new(alloc),
        commands: Items::new(alloc),
    }
}

fn read(alloc: Global, text: &[u8]) -> Result<Log, LogFault> {
    log_of(alloc, &match_of(alloc), text)
}

// The line at which a text is refused, or 0.
fn refused(alloc: Global, text: &[u8]) -> u32 {
    match read(alloc, text) {
        Err(LogFault::Refused { line }) => line,
        _ => 0,
    }
}

// The number of the line in which a byte stands.
fn line_at(place: usize) -> u32 {
    let front = &WHOLE.as_bytes()[..place.min(WHOLE.len())];
    front.iter().filter(|c| **c == b'\n').count() as u32 + 1
}

#[test]
fn a_log_is_printed_as_it_was_read(rt: HostRuntime) -> Result<(), Fail> {
    let setup = match_of(rt.alloc());
    let log = log_of(rt.alloc(), &setup, WHOLE.as_bytes())?;
    let mut printed = Vec::new(rt.alloc());
    push_log(&setup, &log, &mut printed)?;
    assert_eq!(rt; printed.as_slice(), WHOLE.as_bytes());
    Ok(())
}

#[test]
fn a_cut_is_refused_at_its_line_but_behind_the_end_of_a_turn(rt: HostRuntime) {
    for place in 0..WHOLE.len() {
        let cut = &WHOLE.as_bytes()[..place];
        let ended = cut.ends_with(b"\n") && [3, 8].contains(&line_at(place));
        let wanted = if ended { 0 } else { line_at(place) };
        assert_eq!(rt; refused(rt.alloc(), cut), wanted, "cut at {place}");
    }
}

#[test]
fn a_spoiled_byte_is_refused_at_its_line(rt: HostRuntime) -> Result<(), Fail> {
    let mut text = WHOLE.as_bytes().to_vec(rt.alloc())?;
    for place in 0..text.len() {
        let whole = std::mem::replace(&mut text[place], b'x');
        assert_eq!(rt;
            refused(rt.alloc(), text.as_slice()),
            line_at(place),
            "spoiled at {place}"
        );
        text[place] = whole;
    }
    Ok(())
}

// A line of the log, what stands in its place, and the line at which that is refused.
const CHANGES: [(&str, &str, u32); 14] = [
    ("-4.50000", "-4.5", 8),
    ("-4.50000", "-04.50000", 8),
    ("-4.50000", "-4.500000", 8),
    ("-32768 ", "-32768.00000 ", 3),
    ("delete 5,5", "delete 05,5", 6),
    ("delete 5,5", "delete +5,5", 6),
    ("delete 5,5", "delete 5,5,", 6),
    ("train 0 65535", "train 0 65536", 9),
    ("turn 1 player 2 stop", "turn 1 player 3 stop", 4),
    ("turn 1 player 2 stop", "turn 1 player 0 stop", 4),
    ("turn 1 player 2 stop", "turn 2 player 2 stop", 4),
    ("turn 1 fff", "turn 1 Fff", 7),
    ("resign\n", "resign \n", 10),
    (
        "turn 2 0123456789abcdef0123456789abcdef\n",
        "turn 2 0123456789abcdef0123456789abcdef\n\n",
        12,
    ),
];

#[test]
fn a_second_spelling_is_refused_at_its_line(rt: HostRuntime) -> Result<(), Fail> {
    for (old, new, line) in CHANGES {
        let text = WHOLE.replace(rt.alloc(), old, new)?;
        assert_eq!(rt; refused(rt.alloc(), text.as_bytes()), line, "{new}");
    }
    Ok(())
}

#[test]
fn a_player_has_sixty_four_commands_in_a_turn(rt: HostRuntime) -> Result<(), Fail> {
    let (front, _) = WHOLE.split_once("command").ok_or("no command")?;
    let mut text = String::from_str(rt.alloc(), front)?;
    for _ in 0..64 {
        text.push_str("command turn 1 player 1 resign\n")?;
    }
    text.push_str("command turn 1 player 2 resign\n")?;
    assert_eq!(rt;
        refused(rt.alloc(), text.as_bytes()),
        68,
        "only the turn's end is missing"
    );
    text.push_str("command turn 1 player 1 resign\n")?;
    assert_eq!(rt;
        refused(rt.alloc(), text.as_bytes()),
        68,
        "the sixty-fifth is refused"
    );
    Ok(())
}
