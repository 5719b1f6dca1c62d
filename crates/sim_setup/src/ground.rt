//! Code 3 at the keys `size` and `closed`; and with the players' masks the land of a match.

ghost use Rattle.std.specs.Prelude.{codes, IfOk, length, map, None, ◌<◌, ◌≡◌, ◌≤◌};
ghost use Rattle.sim_setup.specs.Setups.{closed_in as closed_in_data, land_in as land_in_data, Meets, rect_of as rect_of_data, rect_on as rect_on_size};
ghost use Rattle.sim_setup.specs.{Common.list_at as list_at_key, Common.view, Setups.rects_from as rects_from_data, Setups.size_in as size_in_data};

use crate::fault::SetupFault;
use crate::players::masks_in;
use serde_json::Value;
use sim_base::{Global, Land, OutOfMemory, Rect, Rects};
use sim_json::{four, list_at, list_of, natural, natural_in, two};

/// The size of a ground in cells, each way from 1 to 256.
#[derive(Clone, Copy, Debug, PartialEq, Eq)]
pub struct Size {
    pub width: u16,
    pub depth: u16,
}

/// The land, or the refusal of the key that is past its limits.
pub fn land_in(alloc: Global, value: &Value) -> Result<Land, SetupFault>
    ensures value { Meets result (land_in_data (view value.now)) }
    ensures no_size { size_in_data (view value.now) ≡ None → result ≡ Err (SetupFault.Refused 3 0) }
    ensures players { IfOk result (λ land. length land.masks ≤ 9) }
{
    let Some(size) = size_in(value) else {
        return Err(SetupFault::Refused { code: 3, index: 0 });
    };
    let Some(closed) = closed_in(alloc, size, value)? else {
        return Err(SetupFault::Refused { code: 3, index: 1 });
    };
    let Some(masks) = masks_in(alloc, value)? else {
        return Err(SetupFault::Refused { code: 3, index: 2 });
    };
    Ok(Land {
        width: size.width,
        depth: size.depth,
        closed,
        masks,
    })
}

fn size_in(value: &Value) -> Option<Size>
    ensures { result ≡ size_in_data (view value.now) }
{
    let (width, depth) = two(list_at(value, "size")?)?;
    let width = natural_in(width, 1, 256)?;
    let depth = natural_in(depth, 1, 256)?;
    Some(Size {
        width: width as u16,
        depth: depth as u16,
    })
}

fn closed_in(alloc: Global, size: Size, value: &Value) -> Result<Option<Rects>, OutOfMemory>
    ensures value { IfOk result (λ closed. closed ≡ closed_in_data size (view value.now)) }
    ensures no_list { list_at_key (codes "closed") (view value.now) ≡ None → result ≡ Ok None }
{
    match list_at(value, "closed") {
        Some(items) => rects_from(alloc, size, items),
        None => Ok(None),
    }
}

fn rects_from(alloc: Global, size: Size, items: &[Value]) -> Result<Option<Rects>, OutOfMemory>
    ensures value { IfOk result (λ closed. closed ≡ rects_from_data size (map view items.now)) }
    ensures many { 4096 < length items.now → result ≡ Ok None }
{
    if items.len() > 4096 {
        return Ok(None);
    }
    let mut found = Vec::new(alloc);
    let mut rest = items;
    while let [item, more @ ..] = rest {
        match rect_of(size, item) {
            Some(rect) => found.push(rect)?,
            None => return Ok(None),
        }
        rest = more;
    }
    Ok(Some(Rects::from_items(found)))
}

fn rect_of(size: Size, value: &Value) -> Option<Rect>
    ensures { result ≡ rect_of_data size (view value.now) }
{
    let (x0, z0, x1, z1) = four(list_of(value)?)?;
    let x0 = natural(x0)?;
    let z0 = natural(z0)?;
    let x1 = natural(x1)?;
    let z1 = natural(z1)?;
    rect_on(size, x0, z0, x1, z1)
}

// The rectangle, where its corners are in order and on the ground.
fn rect_on(size: Size, x0: u64, z0: u64, x1: u64, z1: u64) -> Option<Rect>
    ensures { result ≡ rect_on_size size x0 z0 x1 z1 }
{
    if x0 <= x1 && x1 < u64::from(size.width) && z0 <= z1 && z1 < u64::from(size.depth) {
        Some(Rect {
            x0: x0 as i32,
            z0: z0 as i32,
            x1: x1 as i32,
            z1: z1 as i32,
        })
    } else {
        None
    }
}
