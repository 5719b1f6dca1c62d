//! Stored states of both versions: loaded, tested, spelled, digested and taken apart.

ghost use Rattle.{sim_base.specs.Limits.IsSetup, sim_base.specs.Rows.id_of, sim_bytes.specs.Rows.HasShortWay};
ghost use Rattle.std.specs.{List.Sorted.IsStrictlyIncreasing, Prelude.map, Prelude.IfOk, Prelude.All};

use sim_base::{
    Aim, Fixed, Global, Items, MAX_STATE, Motion, OutOfMemory, Point, Row, Setup, State,
};
use sim_codec::{
    Part, StateFault, a_spelling_is_taken, bits_of, digest, is_valid, load, mark, quick, spell,
    stands,
};
use sim_diff::difference;
use sim_setup::setup_of;
use std::test::Fail;

// Ground with two players, and templates for a post, a guard and a walker.
const MATCH: &str =
    r#"{"size":[16,16],"closed":[],"players":[[],[]],"cap":0,"delay":1,"turns":2,"seed":0,"templates":[{"@name":"post","Health":{"Max":50},"Obstruct":{"Width":4,"Depth":4}},{"@name":"guard","Health":{"Max":10},"Motion":{"Speed":10},"Attack":{"Hack":1,"Range":2,"Vision":10,"Repeat":3}},{"@name":"walker","Motion":{"Speed":10}}],"entities":[],"commands":[]}"#;

// What follows the head in both versions, of three rows in all sections: a guard that goes and attacks, a post, and a walker
// that stands inside the post.
const TAIL: [u8; 187] = [
    // the clock
    2, 0, 0, 0, 5, 0, 0, 0, 188, 154, 120, 86, 52, 18, 0, 0,
    // entities
    1, 3, 0, 0, 0, 2, 0, 0, 0, 1, 0, 3, 0, 0, 0, 0, 0, 4, 0, 0, 0, 2, 0,
    // positions
    2, 3, 0, 0, 0, 2, 0, 0, 0, 0, 128, 1, 0, 0, 128, 2, 0, 3, 0, 0, 0, 0, 0, 4, 0, 0, 0, 4, 0, 4,
    0, 0, 0, 0, 0, 4, 0, 0, 128, 4, 0,
    // owners
    3, 3, 0, 0, 0, 2, 0, 0, 0, 1, 3, 0, 0, 0, 2, 4, 0, 0, 0, 0,
    // healths
    4, 2, 0, 0, 0, 2, 0, 0, 0, 1, 0, 1, 0, 3, 0, 0, 0, 0, 0, 50, 0,
    // motions
    5, 2, 0, 0, 0, 2, 0, 0, 0, 1, 0, 0, 3, 0, 0, 0, 4, 0, 1, 2, 0, 128, 2, 0, 0, 128, 3, 0, 0, 0,
    3, 0, 0, 0, 4, 0, 4, 0, 0, 0, 0, 0, 0, 0, 0, 0, 0, 0, 0, 0, 0,
    // attacks
    6, 1, 0, 0, 0, 2, 0, 0, 0, 3, 0, 0, 0, 3, 0,
];

// The last section, in which the guard holds its place.
const STANCE: [u8; 10] = [7, 1, 0, 0, 0, 2, 0, 0, 0, 1];

fn setup(alloc: Global) -> Result<Setup, Fail>
    ensures { IfOk result IsSetup }
{
    match setup_of(alloc, MATCH.as_bytes()) {
        Ok(setup) => Ok(setup),
        Err(_) => Err(Fail::from("no match")),
    }
}

// A stored state of this version, with what follows the sections of both.
fn stored(alloc: Global, setup: &Setup, version: u8, rest: &[u8]) -> Result<Vec<u8>, OutOfMemory> {
    let mut bytes = Vec::new(alloc);
    bytes.extend_from_slice(&[82, 83, 73, 77, version, 0, 0, 0])?;
    bytes.extend_from_slice(&setup.id)?;
    bytes.extend_from_slice(&TAIL)?;
    bytes.extend_from_slice(rest)?;
    Ok(bytes)
}

#[test]
fn states_of_both_versions_are_loaded(rt: HostRuntime) -> Result<(), Fail> {
    let alloc = rt.alloc();
    let setup = setup(alloc)?;
    let free = [7, 1, 0, 0, 0, 2, 0, 0, 0, 0];
    for (version, rest, after) in [
        (1, [].as_slice(), free.as_slice()),
        (2, &free, &free),
        (2, &STANCE, &STANCE),
    ] {
        let bytes = stored(alloc, &setup, version, rest)?;
        let state = load(alloc, &setup, &bytes)?;
        assert!(rt; stands(&setup, &bytes).is_ok(), "version {version}");
        assert!(rt;
            a_spelling_is_taken(&setup, &bytes).is_ok(),
            "version {version}"
        );
        assert!(rt; is_valid(&setup, &state), "version {version}");
        let wanted = stored(alloc, &setup, 2, after)?;
        let spelled = spell(alloc, &setup, &state)?;
        assert_eq!(rt; spelled.as_slice(), wanted.as_slice());
        let again = load(alloc, &setup, &spelled)?;
        assert!(rt; difference(&state, &again).is_none(), "version {version}");
    }
    Ok(())
}

#[test]
fn version_1_says_nothing_of_who_holds(rt: HostRuntime) -> Result<(), Fail> {
    let setup = setup(rt.alloc())?;
    for (version, rest) in [(1, STANCE.as_slice()), (2, &[]), (2, &STANCE[..9])] {
        let bytes = stored(rt.alloc(), &setup, version, rest)?;
        let fault = stands(&setup, &bytes).err();
        assert_eq!(rt; fault, Some(StateFault::Grammar), "version {version}");
    }
    Ok(())
}

// The digest of the state in which the guard holds, and what a report of its turn carries.
#[test]
fn states_have_their_digests(rt: HostRuntime) -> Result<(), Fail> {
    let setup = setup(rt.alloc())?;
    let bytes = stored(rt.alloc(), &setup, 2, &STANCE)?;
    let state = load(rt.alloc(), &setup, &bytes)?;
    let short = [
        0xed, 0x8d, 0xb7, 0xfd, 0x15, 0x24, 0x79, 0xa1, 0xb8, 0x16, 0x95, 0x07, 0x75, 0xff, 0x3f,
        0x91,
    ];
    assert_eq!(rt;
        digest(&setup, &state),
        [
            0x80, 0x07, 0xca, 0xec, 0xfb, 0x29, 0x8e, 0xfa, 0x71, 0x68, 0x8f, 0x5a, 0x48, 0x09,
            0xc2, 0x99,
        ]
    );
    assert_eq!(rt; quick(&setup, &state), short);
    assert_eq!(rt; mark(&setup, &state), short);
    Ok(())
}

// Whether an entity has just these bytes in a section, where no bytes say that it has none there.
fn has_bits(state: &State, entity: u32, part: Part, wanted: &[u8]) -> bool
    requires ascending { IsStrictlyIncreasing (map id_of state.now.rows) }
    requires short { All HasShortWay state.now.rows }
{
    match bits_of(state, entity, part).bytes() {
        None => wanted.is_empty(),
        Some(bytes) => bytes == wanted,
    }
}

// An entity and a part of it, and from where to where its bytes stand.
static PLACES: [(u32, Part, usize, usize); 14] = [
    (1, Part::Clock, 24, 40),
    (2, Part::Entity, 45, 51),
    (2, Part::Position, 68, 80),
    (2, Part::Owner, 109, 114),
    (2, Part::Health, 129, 137),
    (2, Part::Motion, 150, 181),
    (4, Part::Motion, 181, 196),
    (2, Part::Attack, 201, 211),
    (2, Part::Stance, 216, 221),
    (1, Part::Entity, 0, 0),
    (2, Part::Clock, 0, 0),
    (3, Part::Motion, 0, 0),
    (3, Part::Stance, 0, 0),
    (5, Part::Entity, 0, 0),
];

#[test]
fn an_entity_has_its_bytes_of_each_section(rt: HostRuntime) -> Result<(), Fail> {
    let setup = setup(rt.alloc())?;
    let bytes = stored(rt.alloc(), &setup, 2, &STANCE)?;
    let state = load(rt.alloc(), &setup, &bytes)?;
    assert!(rt; is_valid(&setup, &state));
    for (entity, part, from, to) in PLACES {
        let wanted = bytes.get(from..to).ok_or("out of range")?;
        assert!(rt;
            has_bits(&state, entity, part, wanted),
            "{part:?} of {entity}"
        );
    }
    Ok(())
}

// A guard with a way of 64 waypoints, all at one point.
fn long_row(alloc: Global, id: u32) -> Result<Row, OutOfMemory> {
    let at = Point {
        x: Fixed::from_raw(163840),
        z: Fixed::from_raw(229376),
    };
    let motion = Motion::Going {
        goal: at,
        way: Items::from_items(vec![in alloc; at; 64]?),
        whole: false,
    };
    let attack = Aim {
        target: 0,
        cooldown: 0,
        hold: true,
    };
    Ok(Row {
        id,
        template: 1,
        at,
        owner: 1,
        health: Some(Fixed::from_raw(655360)),
        motion: Some(motion),
        attack: Some(attack),
    })
}

#[test]
fn the_longest_state_has_as_many_bytes_as_a_state_may_have(rt: HostRuntime) -> Result<(), Fail> {
    let alloc = rt.alloc();
    let setup = setup(alloc)?;
    let mut rows = Items::new(alloc);
    for id in 2..4098u32 {
        rows.push(long_row(alloc, id)?)?;
    }
    let state = State {
        turn: 1,
        next: 4098,
        word: 0,
        rows,
    };
    assert!(rt; is_valid(&setup, &state));
    let bytes = spell(alloc, &setup, &state)?;
    assert_eq!(rt; bytes.len(), MAX_STATE);
    assert!(rt; stands(&setup, &bytes).is_ok());
    Ok(())
}
