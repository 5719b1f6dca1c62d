//! The rows of the first section, each of six bytes: the id of an entity and the number of its template. What these two
//! say of all entities is read off them, so that no row is taken from any section for it.

ghost use Rattle.sim_codec.specs.{Common.{first_chunks, IsStrictlyIncreasing, list_any}, PartLaws.{id_in, lives_as, passes, template_in}};
ghost use Rattle.std.specs.Prelude.{count_by, IsTrue, length, map, ◌*◌, ◌↔◌, ◌≡◌, ◌≤◌};

use crate::part::PartForm;
use sim_base::Template;
use sim_bytes::HealthRow;

/// The id of an entity.
pub fn id_of(entity: &[u8; 6]) -> u32
    ensures { result ≡ id_in entity.now }
{
    u32::from_le_bytes([entity[0], entity[1], entity[2], entity[3]])
}

/// The number of its template.
pub fn template_of(entity: &[u8; 6]) -> u16
    ensures { result ≡ template_in entity.now }
{
    u16::from_le_bytes([entity[4], entity[5]])
}

/// So many rows at the front of the section.
pub fn entities_in(section: &[u8], count: usize) -> &[[u8; 6]]
    requires { count * 6 ≤ length section.now }
    ensures { result.now ≡ first_chunks 6 count section.now }
{
    let (entities, _) = section.as_chunks::<6>();
    &entities[..count]
}

// Whether entities of the template of this number have this part.
fn has<'a, R: PartForm<'a>>(templates: &[Template], number: u16) -> bool
    ensures { result ≡ passes R.of_template templates.now number }
{
    match templates.get(number as usize) {
        None => false,
        Some(template) => R::is_of(template),
    }
}

/// Whether each id is above the one before.
pub fn are_ascending(entities: &[[u8; 6]]) -> bool
    ensures { IsTrue result ↔ IsStrictlyIncreasing (map id_in entities.now) }
{
    entities.is_sorted_by(|before, entity| id_of(before) < id_of(entity))
}

/// Whether one of them has this id and a template with health. Ids ascend, so it is found by halves.
pub fn is_living(templates: &[Template], entities: &[[u8; 6]], id: u32) -> bool
    requires { IsStrictlyIncreasing (map id_in entities.now) }
    ensures { result ≡ list_any (lives_as templates.now id) entities.now }
{
    match entities.binary_search_by_key(&id, |entity| id_of(entity)) {
        Ok(at) => has::<HealthRow>(templates, template_of(&entities[at])),
        Err(_) => false,
    }
}

/// How many have this part.
pub fn count<'a, R: PartForm<'a>>(templates: &[Template], entities: &[[u8; 6]]) -> usize
    ensures { result ≡ count_by (λ bytes. passes R.of_template templates.now (template_in bytes)) entities.now }
{
    let mut found = 0usize;
    let mut rest = entities;
    'entities: while let [entity, more @ ..] = rest {
        found += usize::from(has::<R>(templates, template_of(entity)));
        rest = more;
    }
    found
}
