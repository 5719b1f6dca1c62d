//! What stands of an entity, as the row of one section, and which entities have one there. Each section is read by itself:
//! of the others only the first is needed, which says the id and the template. The row gets the id that stands there, so
//! that rows that do not belong together are not spelled as they stand.

ghost use Rattle.{sim_bytes.specs.Reading.{Reader, Reads}, sim_codec.specs.{Common.{Parts, parts_at, Row, row_of, Template, Version, Walk}, Reading.IsLike}};
ghost use Rattle.std.specs.Prelude.{Bool, is_some, List, Option, slice_get, Some, ℕ, ◌≡◌};

use sim_base::Template;
use sim_bytes::{
    AttackRow, EntityRow, HealthRow, MotionRow, OwnerRow, PositionRow, RowForm, Short, StanceRow,
    Take, Version, Walk, take_if,
};

/// A row that is one of the parts of an entity.
pub trait PartForm<'a>: RowForm<'a> {
    /// Entities of this template have it.
    ghost of_template: { Template → Bool };

    /// Where its section is read from.
    ghost bytes_in: { Walk → List ℕ };

    /// What an entity of this template and this id has in its section.
    ghost part_at: { Version → Template → ℕ → Reader (Option Self) };

    /// Whether entities of this template have it.
    fn is_of(template: &Template) -> bool
        ensures { result ≡ of_template template.now };

    /// A reader where its section is read from.
    fn reader(walk: &Walk<'a>) -> Take<'a>
        ensures { result ≡ bytes_in walk.now };

    /// Takes what an entity of this template has in its section, with this id.
    fn take_part(
        version: Version,
        template: &Template,
        id: u32,
        from: &mut Take<'a>,
    ) -> Result<Option<Self>, Short>
        ensures { Reads (part_at version template.now id) from.old result from.new };

    /// A row that has the parts of its template has it just where the template has.
    ghost like_template: { (row : Row) (template : Template) → IsLike row template → is_some (Self.in_row row) ≡ of_template template };

    /// Where the parts of an entity are taken from all sections, this one is read as that part.
    ghost takes: { (templates : List Template) (walk after : Walk) (parts : Parts) (template : Template) → parts_at templates walk ≡ Some (parts, after)
        → slice_get templates parts.entity.1 ≡ Some template
        → part_at walk.version template parts.entity.0 (bytes_in walk) ≡ Some (Self.in_row (row_of parts), bytes_in after) };
}

impl<'a> PartForm<'a> for EntityRow {
    ghost use Rattle.{sim_codec.specs.{Taken.entity_part_at, TakenLaws.entity_taken}, std.{proofs.Common.refl, specs.Prelude.true}};

    ghost of_template = { λ template. true };

    ghost bytes_in = { λ walk. walk.entity };

    ghost part_at = { entity_part_at };

    fn is_of(_: &Template) -> bool {
        true
    }

    fn reader(walk: &Walk<'a>) -> Take<'a> {
        walk.entity.fork()
    }

    fn take_part(
        _: Version,
        _: &Template,
        id: u32,
        from: &mut Take<'a>,
    ) -> Result<Option<EntityRow>, Short> {
        match take_if::<EntityRow>(from, true)? {
            None => Ok(None),
            Some(mut row) => {
                row.id = id;
                Ok(Some(row))
            }
        }
    }

    ghost like_template = { λ row template like. refl };

    ghost takes = { entity_taken };
}

impl<'a> PartForm<'a> for PositionRow {
    ghost use Rattle.{sim_codec.specs.{Taken.position_part_at, TakenLaws.position_taken}, std.{proofs.Common.refl, specs.Prelude.true}};

    ghost of_template = { λ template. true };

    ghost bytes_in = { λ walk. walk.position };

    ghost part_at = { position_part_at };

    fn is_of(_: &Template) -> bool {
        true
    }

    fn reader(walk: &Walk<'a>) -> Take<'a> {
        walk.position.fork()
    }

    fn take_part(
        _: Version,
        _: &Template,
        id: u32,
        from: &mut Take<'a>,
    ) -> Result<Option<PositionRow>, Short> {
        match take_if::<PositionRow>(from, true)? {
            None => Ok(None),
            Some(mut row) => {
                row.id = id;
                Ok(Some(row))
            }
        }
    }

    ghost like_template = { λ row template like. refl };

    ghost takes = { position_taken };
}

impl<'a> PartForm<'a> for OwnerRow {
    ghost use Rattle.{sim_codec.specs.{Taken.owner_part_at, TakenLaws.owner_taken}, std.{proofs.Common.refl, specs.Prelude.true}};

    ghost of_template = { λ template. true };

    ghost bytes_in = { λ walk. walk.owner };

    ghost part_at = { owner_part_at };

    fn is_of(_: &Template) -> bool {
        true
    }

    fn reader(walk: &Walk<'a>) -> Take<'a> {
        walk.owner.fork()
    }

    fn take_part(
        _: Version,
        _: &Template,
        id: u32,
        from: &mut Take<'a>,
    ) -> Result<Option<OwnerRow>, Short> {
        match take_if::<OwnerRow>(from, true)? {
            None => Ok(None),
            Some(mut row) => {
                row.id = id;
                Ok(Some(row))
            }
        }
    }

    ghost like_template = { λ row template like. refl };

    ghost takes = { owner_taken };
}

impl<'a> PartForm<'a> for HealthRow {
    ghost use Rattle.{sim_codec.specs.{PartLaws.health_like, Taken.health_part_at, TakenLaws.health_taken}, std.specs.Prelude.is_some};

    ghost of_template = { λ template. is_some template.health };

    ghost bytes_in = { λ walk. walk.health };

    ghost part_at = { health_part_at };

    fn is_of(template: &Template) -> bool {
        template.health.is_some()
    }

    fn reader(walk: &Walk<'a>) -> Take<'a> {
        walk.health.fork()
    }

    fn take_part(
        _: Version,
        template: &Template,
        id: u32,
        from: &mut Take<'a>,
    ) -> Result<Option<HealthRow>, Short> {
        match take_if::<HealthRow>(from, template.health.is_some())? {
            None => Ok(None),
            Some(mut row) => {
                row.id = id;
                Ok(Some(row))
            }
        }
    }

    ghost like_template = { health_like };

    ghost takes = { health_taken };
}

impl<'a> PartForm<'a> for MotionRow<'a> {
    ghost use Rattle.{sim_codec.specs.{PartLaws.motion_like, Taken.motion_part_at, TakenLaws.motion_taken}, std.specs.Prelude.is_some};

    ghost of_template = { λ template. is_some template.speed };

    ghost bytes_in = { λ walk. walk.motion };

    ghost part_at = { motion_part_at };

    fn is_of(template: &Template) -> bool
        ensures { result ≡ is_some template.now.speed }
    {
        template.speed.is_some()
    }

    fn reader(walk: &Walk<'a>) -> Take<'a> {
        walk.motion.fork()
    }

    fn take_part(
        _: Version,
        template: &Template,
        id: u32,
        from: &mut Take<'a>,
    ) -> Result<Option<MotionRow<'a>>, Short> {
        match take_if::<MotionRow>(from, template.speed.is_some())? {
            None => Ok(None),
            Some(mut row) => {
                row.id = id;
                Ok(Some(row))
            }
        }
    }

    ghost like_template = { motion_like };

    ghost takes = { motion_taken };
}

impl<'a> PartForm<'a> for AttackRow {
    ghost use Rattle.{sim_codec.specs.{PartLaws.attack_like, Taken.attack_part_at, TakenLaws.attack_taken}, std.specs.Prelude.is_some};

    ghost of_template = { λ template. is_some template.arms };

    ghost bytes_in = { λ walk. walk.attack };

    ghost part_at = { attack_part_at };

    fn is_of(template: &Template) -> bool {
        template.arms.is_some()
    }

    fn reader(walk: &Walk<'a>) -> Take<'a> {
        walk.attack.fork()
    }

    fn take_part(
        _: Version,
        template: &Template,
        id: u32,
        from: &mut Take<'a>,
    ) -> Result<Option<AttackRow>, Short> {
        match take_if::<AttackRow>(from, template.arms.is_some())? {
            None => Ok(None),
            Some(mut row) => {
                row.id = id;
                Ok(Some(row))
            }
        }
    }

    ghost like_template = { attack_like };

    ghost takes = { attack_taken };
}

impl<'a> PartForm<'a> for StanceRow {
    ghost use Rattle.{sim_codec.specs.{PartLaws.stance_like, Taken.stance_part_at, TakenLaws.stance_taken}, std.specs.Prelude.is_some};

    ghost of_template = { λ template. is_some template.arms };

    ghost bytes_in = { λ walk. walk.stance };

    ghost part_at = { stance_part_at };

    fn is_of(template: &Template) -> bool {
        template.arms.is_some()
    }

    fn reader(walk: &Walk<'a>) -> Take<'a> {
        walk.stance.fork()
    }

    fn take_part(
        version: Version,
        template: &Template,
        id: u32,
        from: &mut Take<'a>,
    ) -> Result<Option<StanceRow>, Short> {
        let has_arms = template.arms.is_some();
        let row = take_if::<StanceRow>(from, version.has_stances() && has_arms)?;
        if !has_arms {
            return Ok(None);
        }
        let hold = match row {
            None => false,
            Some(row) => row.hold,
        };
        Ok(Some(StanceRow { id, hold }))
    }

    ghost like_template = { stance_like };

    ghost takes = { stance_taken };
}
