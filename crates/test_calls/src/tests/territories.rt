//! Territories after states that no match of commands alone has: a hall that changes its owner, one that is gone, and one that is
//! back. The numbers were worked out by hand.

ghost use Rattle.std.specs.Prelude.{◌≡◌, ◌<◌, length, IfOk, OnOk};
ghost use Rattle.sim_base.specs.Limits.{IsSetup};

use sim_base::{Global, OutOfMemory, Setup};
use sim_codec::load;
use sim_setup::setup_of;
use sim_territory::Realm;
use std::test::Fail;

// A strip of 32 cells with two players, and templates for a hall and a hut.
const STRIP: &str =
    r#"{"size":[32,1],"closed":[],"players":[[],[]],"cap":0,"delay":1,"turns":0,"seed":0,"templates":[{"@name":"hall","Obstruct":{"Width":1,"Depth":1},"Train":{"Units":"hall"}},{"@name":"hut","Obstruct":{"Width":1,"Depth":1}}],"entities":[],"commands":[]}"#;

// An entity: its id, its template, the cell in which it stands, and its owner.
#[derive(Clone, Copy)]
struct Standing {
    id: u8,
    template: u8,
    cell: u8,
    owner: u8,
}

// How many cells each of the two players holds, and how many cells are rooted.
#[derive(Clone, Copy, Debug, PartialEq, Eq)]
struct Told {
    first: usize,
    second: usize,
    rooted: usize,
}

const WEST: Standing = Standing {
    id: 2,
    template: 0,
    cell: 4,
    owner: 1,
};

const WEST_TAKEN: Standing = Standing { owner: 2, ..WEST };

const EAST: Standing = Standing {
    id: 3,
    template: 0,
    cell: 10,
    owner: 2,
};

const HUT: Standing = Standing {
    id: 4,
    template: 1,
    cell: 25,
    owner: 1,
};

fn setup(alloc: Global) -> Result<Setup, Fail>
    ensures { IfOk result IsSetup }
{
    match setup_of(alloc, STRIP.as_bytes()) {
        Ok(setup) => Ok(setup),
        Err(_) => Err(Fail::from("no match")),
    }
}

// A stored state of these entities, each in the middle of its cell.
fn stored(alloc: Global, setup: &Setup, rows: &[Standing]) -> Result<Vec<u8>, OutOfMemory>
    requires { length rows.now < 256 }
{
    let mut bytes = Vec::new(alloc);
    bytes.extend_from_slice(&[82, 83, 73, 77, 2, 0, 0, 0])?;
    bytes.extend_from_slice(&setup.id)?;
    bytes.extend_from_slice(&[0, 0, 0, 0, 5, 0, 0, 0, 0, 0, 0, 0, 0, 0, 0, 0])?;
    let count = rows.len() as u8;
    bytes.extend_from_slice(&[1, count, 0, 0, 0])?;
    for row in rows {
        bytes.extend_from_slice(&[row.id, 0, 0, 0, row.template, 0])?;
    }
    bytes.extend_from_slice(&[2, count, 0, 0, 0])?;
    for row in rows {
        bytes.extend_from_slice(&[row.id, 0, 0, 0, 0, 128, row.cell, 0, 0, 128, 0, 0])?;
    }
    bytes.extend_from_slice(&[3, count, 0, 0, 0])?;
    for row in rows {
        bytes.extend_from_slice(&[row.id, 0, 0, 0, row.owner])?;
    }
    for tag in 4..8u8 {
        bytes.extend_from_slice(&[tag, 0, 0, 0, 0])?;
    }
    Ok(bytes)
}

// Has a realm follow the state of these entities.
fn follow(
    alloc: Global,
    setup: &Setup,
    realm: &mut Realm<'_>,
    rows: &[Standing],
) -> Result<Told, Fail>
    requires limits { IsSetup setup.now }
    requires same { realm.old.setup ≡ setup.now }
    requires few { length rows.now < 256 }
    ensures { OnOk result (realm.new.setup ≡ setup.now) }
{
    let bytes = stored(alloc, setup, rows)?;
    let state = load(alloc, setup, &bytes)?;
    realm.follow(&state)?;
    counted(realm)
}

fn counted(realm: &Realm<'_>) -> Result<Told, Fail> {
    let holders = realm.holders();
    let rooted = realm.rooted()?;
    Ok(Told {
        first: holders.iter().filter(|holder| **holder == 1).count(),
        second: holders.iter().filter(|holder| **holder == 2).count(),
        rooted: rooted.as_slice().iter().filter(|flag| **flag).count(),
    })
}

#[test]
fn ground_follows_its_owners(rt: HostRuntime) -> Result<(), Fail> {
    let alloc = rt.alloc();
    let setup = setup(alloc)?;
    let mut realm = Realm::new(alloc, &setup)?;
    let begun = follow(alloc, &setup, &mut realm, &[WEST, EAST, HUT])?;
    assert_eq!(rt;
        begun,
        Told {
            first: 22,
            second: 10,
            rooted: 18
        }
    );
    let taken = follow(alloc, &setup, &mut realm, &[WEST_TAKEN, EAST, HUT])?;
    assert_eq!(rt;
        taken,
        Told {
            first: 14,
            second: 18,
            rooted: 18
        }
    );
    let gone = follow(alloc, &setup, &mut realm, &[WEST_TAKEN, HUT])?;
    assert_eq!(rt;
        gone,
        Told {
            first: 14,
            second: 12,
            rooted: 12
        }
    );
    let back = follow(alloc, &setup, &mut realm, &[WEST, EAST, HUT])?;
    assert_eq!(rt; back, begun);
    Ok(())
}

#[test]
fn influences_are_lent_cell_by_cell(rt: HostRuntime) -> Result<(), Fail> {
    let alloc = rt.alloc();
    let setup = setup(alloc)?;
    let mut realm = Realm::new(alloc, &setup)?;
    if setup.players < 2 {
        return Err(Fail::from("less than two players"));
    }
    follow(alloc, &setup, &mut realm, &[WEST, EAST, HUT])?;
    let west = realm.influence(1);
    let east = realm.influence(2);
    for (cell, first, second) in [
        (0, 40, 0),
        (3, 70, 10),
        (4, 80, 20),
        (7, 50, 50),
        (10, 20, 80),
        (18, 10, 0),
        (31, 20, 0),
    ] {
        assert_eq!(rt; west.get(cell), Some(&first), "cell {cell}");
        assert_eq!(rt; east.get(cell), Some(&second), "cell {cell}");
    }
    Ok(())
}
