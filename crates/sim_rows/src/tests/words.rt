//! What each command prints, and how it ends.

use sim_base::{Global, OutOfMemory};
use sim_top::Status;
use std::test::Fail;
use test_runs::games::{POSTS, STEP};
use test_runs::{Case, Printed, first_unmet, print, shelf_of};

const POSTS_LINES: &str = "turn 0 17328fba69143d17c79259ab7d40e803
turn 1 8fe2300087879a3c47e3af011e612274
turn 2 d81f0e51244512e9cd24c374c62ecb18
";

const REJOINED: &str = "first 0 74db5c88c5625db350f3bce6dede3099
first 1 20d725bf6dad6057d64ca4efab99a4e1
first 2 04362895d2b889bf9e66ca1487c50a18
second 1 20d725bf6dad6057d64ca4efab99a4e1
second 2 04362895d2b889bf9e66ca1487c50a18
";

// Two walkers of two players who are no enemies.
const TWO: &str =
    r#"{"size":[16,16],"closed":[],"players":[[],[]],"cap":0,"delay":2,"turns":5,"seed":0,"templates":[{"@name":"walker","Motion":{"Speed":10}}],"entities":[["walker",1,"2.5","2.5"],["walker",2,"2.5","5.5"]],"commands":[]}"#;

// One orders and plays, the other is cut and joins again.
const STEPS: &str =
    r#"{"clients":2,"steps":[["order",1,"walk",[2],"6.5","2.5"],["up",1],["play",1],["join",2],["bend",1,2,1],["cut",2],["join",2],["up",2],["down",1],["down",1],["up",1],["up",1],["down",2],["down",2]]}"#;

const SESSION: &str = "client 1 start 0 73e3470f5addc8ca29a65fd51b7bcd2f
client 2 start 0 73e3470f5addc8ca29a65fd51b7bcd2f
client 1 order 3
client 1 play 1 35320ef0d4b872585577f4e1c68b3ade
client 2 cut
client 2 join
released 3
kept 3 1
end 1 on 1 35320ef0d4b872585577f4e1c68b3ade
end 2 joining
pipe 1 up 161
pipe 1 down 9
pipe 2 up
pipe 2 down
";

// A client joins late, and another sends bytes that are no frame.
const ARRIVALS: &str =
    r#"{"clients":3,"active":2,"delay":1,"turns":4,"arrivals":[[1,"command",2,"stop",[2]],[3,"join"],[1,"done",2],[2,"command",2,"resign"],[1,"state",3,1,"00"],[3,"command",2,"stop",[]],[2,"bytes","ff"],[2,"done",3]]}"#;

const SERVED: &str = "to 1 command turn 2 player 1 stop 2
to 2 command turn 2 player 1 stop 2
to 1 ask 3
to 1 command turn 2 player 2 resign
to 2 command turn 2 player 2 resign
to 3 state done 2 bytes 1
to 3 command turn 2 player 1 stop 2
to 3 command turn 2 player 2 resign
to 3 release 1
to 3 refused 2
to 1 release 2
to 3 release 2
to 2 refused 1
released 2
kept 2 2
";

const TRIAL: &str = "trial 7 8 5 alive 8 f4cf71a654e6b6591dc7620ed28c6df9\n";

// A camp that is told to train two walkers, of which its player can pay one, after a barter.
const CAMP: &str =
    r#"{"size":[4,4],"closed":[],"players":[[]],"cap":4,"delay":1,"turns":1,"seed":0,"templates":[{"@name":"walker","Motion":{"Speed":4}},{"@name":"camp","Train":{"Units":"walker"}}],"entities":[["camp",1,"1.5","1.5"]],"commands":[[1,1,"train",2,0],[1,1,"train",2,0]]}"#;

const ECONOMY: &str =
    r#"{"start":[[50,0]],"prices":[["walker",30,0]],"income":[["walker",2,1]],"deeds":[[1,1,"barter",0,11]]}"#;

const STOCKS: &str = "turn 0 f62fc3c8daaf7e138a0146ea25f6b221
turn 1 0d9544bb4e1d49dc65f86d786d5fd433
stock 1 11 9
";

static CASES: [Case; 11] = [
    (&["play", "m"], &[("m", POSTS)], Status::Done, POSTS_LINES),
    (
        &["rejoin", "m", "1"],
        &[("m", STEP)],
        Status::Done,
        REJOINED,
    ),
    (
        &["session", "m", "l"],
        &[("m", TWO), ("l", STEPS)],
        Status::Done,
        SESSION,
    ),
    (&["serve", "l"], &[("l", ARRIVALS)], Status::Done, SERVED),
    (&["trial", "7", "8", "5"], &[], Status::Done, TRIAL),
    (
        &["stock", "m", "e"],
        &[("m", CAMP), ("e", ECONOMY)],
        Status::Done,
        STOCKS,
    ),
    (
        &["stock", "m", "e"],
        &[("m", CAMP), ("e", "{}")],
        Status::EconomyRefused,
        "economy refused 0\n",
    ),
    (
        &["play", "m"],
        &[("m", "[]")],
        Status::MatchRefused,
        "match refused 2 0\n",
    ),
    (
        &["serve", "l"],
        &[("l", "")],
        Status::ListRefused,
        "list refused 0\n",
    ),
    (
        &["state", "m", "3", "s"],
        &[("m", POSTS)],
        Status::NoSuchTurn,
        "no turn 3 of 2\n",
    ),
    (&["play", "x"], &[("m", POSTS)], Status::NoFile, ""),
];

#[test]
fn each_command_gives_its_status_and_text(rt: HostRuntime) -> Result<(), Fail> {
    let unmet = first_unmet(rt.alloc(), &CASES)?;
    assert!(rt; unmet.is_none(), "{unmet:?}");
    Ok(())
}

/// Words, how the run ends, and what it prints.
type Step = (&'static [&'static str], Status, &'static str);

// Commands over the state that the first of them stores, and what they print.
static STORED: [Step; 8] = [
    (
        &["state", "m", "000000001", "s"],
        Status::Done,
        "state 1 129 20d725bf6dad6057d64ca4efab99a4e1\n",
    ),
    (
        &["show", "m", "s"],
        Status::Done,
        "turn 1 next 3 word 0 rows 1\nentity 2 template walker owner 1 at 4.50000 2.50000 motion going 6.50000 2.50000 way 2 whole 1\n",
    ),
    (
        &["resume", "m", "s"],
        Status::Done,
        "turn 1 20d725bf6dad6057d64ca4efab99a4e1\nturn 2 04362895d2b889bf9e66ca1487c50a18\n",
    ),
    (&["compare", "m", "s", "s"], Status::Done, "same\n"),
    (
        &["show", "m", "m"],
        Status::StateRefused,
        "state refused 1 m\n",
    ),
    (
        &["sight", "m", "1", "o"],
        Status::Done,
        "sight 1 visible 1 explored 2\n",
    ),
    (
        &["resight", "m", "s", "o"],
        Status::Done,
        "sight 1 visible 1 explored 3\n",
    ),
    (
        &["resight", "m", "s", "m"],
        Status::SightRefused,
        "sight refused 1\n",
    ),
];

// The place of the first step that ends or prints otherwise, with what it prints. Each goes over what those before it have stored.
fn first_otherwise(
    alloc: Global,
    files: &[(&str, &[u8])],
    steps: &[Step],
) -> Result<Option<(usize, Printed)>, OutOfMemory> {
    let mut shelf = shelf_of(alloc, files)?;
    for (place, (words, status, text)) in steps.iter().enumerate() {
        let printed = print(alloc, words, &mut shelf)?;
        if !is_printed(&printed, *status, text) {
            return Ok(Some((place, printed)));
        }
    }
    Ok(None)
}

fn is_printed(printed: &Printed, status: Status, text: &str) -> bool {
    printed.status == status && printed.text.as_str() == text
}

#[test]
fn a_state_is_stored_shown_and_played_on(rt: HostRuntime) -> Result<(), Fail> {
    let files: &[(&str, &[u8])] = &[("m", STEP.as_bytes())];
    let unmet = first_otherwise(rt.alloc(), files, &STORED)?;
    assert!(rt; unmet.is_none(), "{unmet:?}");
    Ok(())
}

// Commands over the logs that the others store, and what they print.
static LOGGED: [Step; 6] = [
    (&["log", "m", "o"], Status::Done, "log 2 212\n"),
    (&["check", "m", "o"], Status::Done, "agree 2\n"),
    (&["check", "m", "m"], Status::LogRefused, "log refused 1\n"),
    (&["record", "t", "l", "p"], Status::Done, "record 3 252\n"),
    (&["check", "t", "p"], Status::Done, "agree 3\n"),
    (&["check", "t", "o"], Status::LogRefused, "log refused 1\n"),
];

#[test]
fn a_log_is_stored_and_checked(rt: HostRuntime) -> Result<(), Fail> {
    let files: &[(&str, &[u8])] = &[
        ("m", STEP.as_bytes()),
        ("t", TWO.as_bytes()),
        ("l", STEPS.as_bytes()),
    ];
    let unmet = first_otherwise(rt.alloc(), files, &LOGGED)?;
    assert!(rt; unmet.is_none(), "{unmet:?}");
    Ok(())
}

static NUMBERS: [(Status, u8); 15] = [
    (Status::Done, 0),
    (Status::Differs, 1),
    (Status::Usage, 2),
    (Status::ReadFault, 3),
    (Status::WriteFault, 4),
    (Status::TooLong, 5),
    (Status::MatchRefused, 6),
    (Status::StateRefused, 7),
    (Status::ListRefused, 8),
    (Status::OutOfMemory, 9),
    (Status::NoSuchTurn, 10),
    (Status::NoFile, 11),
    (Status::SightRefused, 12),
    (Status::LogRefused, 13),
    (Status::EconomyRefused, 14),
];

// The first of these statuses that has another number.
fn first_numbered_otherwise(numbers: &[(Status, u8)]) -> Option<usize> {
    for (place, (status, number)) in numbers.iter().enumerate() {
        if status.number() != *number {
            return Some(place);
        }
    }
    None
}

#[test]
fn statuses_have_their_numbers(rt: HostRuntime) {
    assert_eq!(rt; first_numbered_otherwise(&NUMBERS), None);
}
