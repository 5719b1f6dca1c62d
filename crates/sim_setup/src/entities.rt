//! Codes 3 and 8 at the key `entities`.

ghost use Rattle.std.specs.Prelude.{map, option_and_then, option_map, ◌≡◌};
ghost use Rattle.sim_setup.specs.Common.{as_str, is_inside as is_inside_size, is_within as is_within_cells, size_of, view};
ghost use Rattle.sim_setup.specs.Setups.{entities_in as entities_in_data, first_of as first_of_data, firsts_from as firsts_from_data, if_inside, Meets};
ghost use Rattle.sim_setup.specs.Setups.{number_of as number_of_name, point_of as point_of_data};

use crate::fault::{SetupFault, refused};
use serde_json::Value;
use sim_base::{First, Firsts, Fixed, Global, Land, MAX_ROWS, Point};
use sim_json::{fixed, four, list_at, list_of, natural_in};
use sim_merge::Library;

/// The items of the list, where there are no more than a state may have entities.
pub fn entities_in(value: &Value) -> Option<&[Value]>
    ensures { option_map (λ items. map view items.now) result ≡ entities_in_data (view value.now) }
{
    let items = list_at(value, "entities")?;
    if items.len() <= MAX_ROWS {
        Some(items)
    } else {
        None
    }
}

/// The entities, or the refusal of the first item that is none.
pub fn firsts_from(
    alloc: Global,
    library: &Library<'_>,
    land: &Land,
    players: u8,
    items: &[Value],
) -> Result<Firsts, SetupFault>
    ensures { Meets result (firsts_from_data library.now.names land.now players (map view items.now)) }
{
    let mut found = Vec::new(alloc);
    let mut rest = items;
    while let [item, more @ ..] = rest {
        match first_of(library, land, players, item) {
            Some(first) => found.push(first)?,
            None => return Err(refused(8, found.len())),
        }
        rest = more;
    }
    Ok(Firsts::from_items(found))
}

#[tactic(auto, unfolding(crate::specs::Setups::first_of))]
fn first_of(library: &Library<'_>, land: &Land, players: u8, item: &Value) -> Option<First>
    ensures { result ≡ first_of_data library.now.names land.now players (view item.now) }
{
    let (name, owner, x, z) = four(list_of(item)?)?;
    let template = number_in(library, name)?;
    let owner = natural_in(owner, 0, u64::from(players))?;
    let at = point_in(land, x, z)?;
    let owner = owner as u8;
    Some(First {
        template,
        owner,
        at,
    })
}

fn number_in(library: &Library<'_>, name: &Value) -> Option<u16>
    ensures { result ≡ option_and_then (number_of_name library.now.names) (as_str (view name.now)) }
{
    library.number_of(name.as_str()?)
}

fn point_in(land: &Land, x: &Value, z: &Value) -> Option<Point>
    ensures { result ≡ option_and_then (if_inside land.now) (point_of_data (view x.now) (view z.now)) }
{
    let at = point_of(x, z)?;
    if is_inside(land, &at) { Some(at) } else { None }
}

fn is_inside(land: &Land, at: &Point) -> bool
    ensures { result ≡ is_inside_size (size_of land.now) at.now }
{
    is_within(at.x, land.width) && is_within(at.z, land.depth)
}

fn is_within(coordinate: Fixed, cells: u16) -> bool
    ensures { result ≡ is_within_cells coordinate cells }
{
    let raw = i64::from(coordinate.raw());
    0 <= raw && raw < i64::from(cells) * 65_536
}

fn point_of(x: &Value, z: &Value) -> Option<Point>
    ensures { result ≡ point_of_data (view x.now) (view z.now) }
{
    let x = fixed(x)?;
    let z = fixed(z)?;
    Some(Point { x, z })
}
