//! Whom each entity sees, as a range lends it: before and after one that is seen has moved away, and not where it looks.

ghost use Rattle.std.specs.Prelude.{◌≡◌, true, None};

use sim_base::{Fixed, Ids, Land, Point, Rects};
use sim_range::Range;
use sim_system::{Fact, Note, System};
use std::test::Fail;

// A point in units of 1/65536 metre.
fn point(x: i32, z: i32) -> Point
    ensures { result ≡ record { x = x; z = z } }
{
    Point {
        x: Fixed::from_raw(x),
        z: Fixed::from_raw(z),
    }
}

// One with health that stands there.
fn body(id: u32, owner: u8, at: Point, vision: Option<Fixed>) -> Fact
    ensures { result ≡ record { id = id; at = at; owner = owner; health = true; vision = vision; rect = None; target = 0 } }
{
    Fact {
        id,
        at,
        owner,
        health: true,
        vision,
        rect: None,
        target: 0,
    }
}

#[test]
fn one_that_moves_away_is_seen_no_more(rt: HostRuntime) -> Result<(), Fail> {
    let alloc = rt.alloc();
    let land = Land {
        width: 16,
        depth: 16,
        closed: Rects::new(alloc),
        masks: Ids::from_items(vec![in alloc; 0, 4, 0]?),
    };
    let near = point(229_376, 294_912);
    let far = point(294_912, 294_912);
    let facts = [
        body(2, 1, point(32_768, 32_768), Some(Fixed::from_raw(327_680))),
        body(3, 2, near, None),
    ];
    let mut range = Range::new(alloc);
    assert_eq!(rt; range.kept(2), None);
    range.rebuild(&land, &facts)?;
    assert_eq!(rt; range.bucket(0, 0), [2, 3].as_slice());
    assert_eq!(rt; range.kept(2), Some([3].as_slice()));
    assert_eq!(rt; range.kept(3), None);
    range.on(&Note::Moved {
        id: 3,
        from: near,
        to: far,
    })?;
    assert_eq!(rt; range.bucket(0, 0), [2, 3].as_slice());
    assert_eq!(rt; range.kept(2), Some([].as_slice()));
    assert_eq!(rt; range.kept(3), None);
    let mut looking = Range::looking(alloc);
    looking.rebuild(&land, &facts)?;
    assert_eq!(rt; looking.bucket(0, 0), [2, 3].as_slice());
    assert_eq!(rt; looking.kept(2), None);
    Ok(())
}
