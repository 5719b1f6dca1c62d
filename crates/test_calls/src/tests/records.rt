//! Lists, names, places, and records that are copied.

ghost use Rattle.std.specs.Prelude.{◌≡◌};

use sim_base::{
    Cell, Command, Fixed, Ids, Items, Motion, Name, PlayerCommand, Point, Rect, cell_of, centre_of,
    rect_of, square,
};
use std::test::Fail;

#[test]
fn changes_a_list(rt: HostRuntime) -> Result<(), Fail> {
    let mut list: Ids = Items::new(rt.alloc());
    list.push(5)?;
    list.push(7)?;
    list.push(9)?;
    let copied = list.copy()?;
    assert_eq!(rt; list.replace(1, 8), 7);
    assert_eq!(rt; list.remove(0), 5);
    assert_eq!(rt; list.as_slice(), [8, 9].as_slice());
    assert_eq!(rt; copied.as_slice(), [5, 7, 9].as_slice());
    let vec = copied.into_items();
    assert_eq!(rt; vec.as_slice(), [5, 7, 9].as_slice());
    assert_eq!(rt; Items::from_items(vec).as_slice(), [5, 7, 9].as_slice());
    Ok(())
}

// 64 bytes.
const LONGEST: &str = "0123456789abcdef0123456789abcdef0123456789abcdef0123456789abcdef";

#[test]
fn names_have_1_to_64_bytes_of_print(rt: HostRuntime) -> Result<(), Fail> {
    for text in ["a", "units/infantry", "!~", LONGEST] {
        match Name::of(rt.alloc(), text)? {
            Some(name) => assert_eq!(rt; name.text(), text),
            None => panic!(rt; "no name: {text}"),
        }
    }
    let longer = format!(in rt.alloc(); "{LONGEST}0")?;
    for text in ["", "two words", "a\n", "a\x7F", "\u{e9}", longer.as_str()] {
        assert!(rt; Name::of(rt.alloc(), text)?.is_none(), "at {text}");
    }
    Ok(())
}

fn point(x: i32, z: i32) -> Point
    ensures x { result.x ≡ x }
    ensures z { result.z ≡ z }
{
    Point {
        x: Fixed::from_raw(x),
        z: Fixed::from_raw(z),
    }
}

fn rect(x0: i32, z0: i32, x1: i32, z1: i32) -> Rect {
    Rect { x0, z0, x1, z1 }
}

// About the point in the middle of a cell.
#[test]
fn places_points_and_cells(rt: HostRuntime) -> Result<(), Fail> {
    let spot = point(360448, 360448);
    assert_eq!(rt; cell_of(spot), Cell { x: 5, z: 5 });
    assert_eq!(rt; cell_of(point(131071, 131072)), Cell { x: 1, z: 2 });
    assert_eq!(rt; centre_of(Cell { x: 5, z: 5 }), spot);
    assert_eq!(rt; square(spot, point(557056, 98304)), 107374182400);
    assert_eq!(rt; rect_of(spot, 2, 3), rect(4, 4, 5, 6));
    assert_eq!(rt; rect_of(point(0, 360448), 4, 1), rect(-2, 5, 1, 5));
    Ok(())
}

#[test]
fn copies_commands(rt: HostRuntime) -> Result<(), Fail> {
    let at = point(65536, -1);
    let ids = Items::from_items(vec![in rt.alloc(); 2, 3]?);
    let walk = PlayerCommand {
        player: 1,
        command: Command::Walk { ids, to: at },
    };
    let place = Command::Place { template: 4, at };
    assert_eq!(rt;
        format!(in rt.alloc(); "{:?}", walk.copy()?)?.as_str(),
        "PlayerCommand { player: 1, command: Walk { ids: Items { items: [2, 3] }, to: Point { x: Fixed(65536), z: Fixed(-1) } } }"
    );
    assert_eq!(rt;
        format!(in rt.alloc(); "{:?}", place.copy()?)?.as_str(),
        "Place { template: 4, at: Point { x: Fixed(65536), z: Fixed(-1) } }"
    );
    Ok(())
}

#[test]
fn copies_a_motion(rt: HostRuntime) -> Result<(), Fail> {
    let goal = point(98304, 0);
    let way = Items::from_items(vec![in rt.alloc(); goal]?);
    let motion = Motion::Going {
        goal,
        way,
        whole: true,
    };
    match motion.copy()? {
        Motion::Going { goal, way, whole } => {
            assert_eq!(rt; way.as_slice(), [goal].as_slice());
            assert!(rt; whole);
        }
        Motion::Still => panic!(rt; "it stands still"),
    }
    Ok(())
}
