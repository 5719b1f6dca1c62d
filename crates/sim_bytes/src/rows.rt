//! The rows of fixed length. Each is an id and a part, and contracts see it as that pair.

ghost use Rattle.std.specs.Prelude.{◌≡◌, ℕ};
ghost use Rattle.sim_base.specs.Spelling.{position_bytes};

use crate::form::RowForm;
use crate::motion::{take_point, tell_point};
use crate::{ByteSink, Short, Take, tell_i32, tell_u8, tell_u16, tell_u32};
use sim_base::{Fixed, Point, Row};
use std::marker::Model;

/// The number of an entity's template.
#[derive(Drop)]
pub struct EntityRow {
    pub id: u32,
    pub template: u16,
}

impl Model for EntityRow {
    ghost use Rattle.std.specs.Prelude.{ℕ};

    ghost Value = { ℕ × ℕ };

    ghost view = { λ row. (row.id, row.template) };
}

impl<'a> RowForm<'a> for EntityRow {
    ghost use Rattle.sim_base.specs.Spelling.{entity_bytes, entity_part};
    ghost use Rattle.sim_bytes.specs.{Laws.entity_back, Laws.entity_few, Laws.prefix_nil, Rows.IsEntity, Rows.entity_at, Rows.with_id};

    ghost TAG = { 1 };

    ghost is_row = { IsEntity };

    ghost spelled = { entity_bytes };

    ghost row_at = { entity_at };

    ghost in_row = { with_id entity_part };

    fn tag() -> u8
        ensures { result ≡ 1 }
    {
        1
    }

    fn of(row: &'a Row) -> Option<EntityRow> {
        Some(EntityRow {
            id: row.id,
            template: row.template,
        })
    }

    fn is_in(_: &'a Row) -> bool {
        true
    }

    #[tactic(auto, unfolding(crate::specs::Rows::entity_at))]
    fn take(from: &mut Take<'a>) -> Result<EntityRow, Short> {
        let id = from.u32()?;
        let template = from.u16()?;
        Ok(EntityRow { id, template })
    }

    #[tactic(auto, unfolding(sim_base::specs::Spelling::u32_bytes, sim_base::specs::Spelling::u16_bytes))]
    fn tell<K: ByteSink>(&self, out: &mut K) -> Result<(), K::Fault> {
        let [a, b, c, d] = self.id.to_le_bytes();
        let [e, f] = self.template.to_le_bytes();
        out.tell(&[a, b, c, d, e, f])
    }

    ghost read_back = { entity_back };

    ghost no_prefix = { prefix_nil entity_at entity_bytes IsEntity entity_back };

    ghost few_bytes = { entity_few };
}

/// Where an entity is.
#[derive(Drop)]
pub struct PositionRow {
    pub id: u32,
    pub at: Point,
}

impl Model for PositionRow {
    ghost use Rattle.{sim_base.specs.declared.place.Point.Point, std.specs.Prelude.ℕ};

    ghost Value = { ℕ × Point };

    ghost view = { λ row. (row.id, row.at) };
}

impl<'a> RowForm<'a> for PositionRow {
    ghost use Rattle.sim_base.specs.Spelling.{position_bytes, position_part};
    ghost use Rattle.sim_bytes.specs.{Laws.position_back, Laws.position_few, Laws.prefix_nil, Rows.IsPosition, Rows.position_at, Rows.with_id};

    ghost TAG = { 2 };

    ghost is_row = { IsPosition };

    ghost spelled = { position_bytes };

    ghost row_at = { position_at };

    ghost in_row = { with_id position_part };

    fn tag() -> u8
        ensures { result ≡ 2 }
    {
        2
    }

    fn of(row: &'a Row) -> Option<PositionRow> {
        Some(PositionRow {
            id: row.id,
            at: row.at,
        })
    }

    fn is_in(_: &'a Row) -> bool {
        true
    }

    #[tactic(auto, unfolding(crate::specs::Rows::position_at))]
    fn take(from: &mut Take<'a>) -> Result<PositionRow, Short> {
        let id = from.u32()?;
        let at = take_point(from)?;
        Ok(PositionRow { id, at })
    }

    fn tell<K: ByteSink>(&self, out: &mut K) -> Result<(), K::Fault> {
        out.tell(&position_piece(self.id, self.at))
    }

    ghost read_back = { position_back };

    ghost no_prefix = { prefix_nil position_at position_bytes IsPosition position_back };

    ghost few_bytes = { position_few };
}

#[tactic(auto, unfolding(sim_base::specs::Spelling::u32_bytes, sim_base::specs::Spelling::i32_bytes))]
fn position_piece(id: u32, at: Point) -> [u8; 12]
    ensures { result ≡ position_bytes (id, at) }
{
    let [a, b, c, d] = id.to_le_bytes();
    let [e, f, g, h] = at.x.raw().to_le_bytes();
    let [i, j, k, l] = at.z.raw().to_le_bytes();
    [a, b, c, d, e, f, g, h, i, j, k, l]
}

/// Whose an entity is.
#[derive(Drop)]
pub struct OwnerRow {
    pub id: u32,
    pub owner: u8,
}

impl Model for OwnerRow {
    ghost use Rattle.std.specs.Prelude.{ℕ};

    ghost Value = { ℕ × ℕ };

    ghost view = { λ row. (row.id, row.owner) };
}

impl<'a> RowForm<'a> for OwnerRow {
    ghost use Rattle.sim_base.specs.Spelling.{owner_bytes, owner_part};
    ghost use Rattle.sim_bytes.specs.{Laws.owner_back, Laws.owner_few, Laws.prefix_nil, Rows.IsOwner, Rows.owner_at, Rows.with_id};

    ghost TAG = { 3 };

    ghost is_row = { IsOwner };

    ghost spelled = { owner_bytes };

    ghost row_at = { owner_at };

    ghost in_row = { with_id owner_part };

    fn tag() -> u8
        ensures { result ≡ 3 }
    {
        3
    }

    fn of(row: &'a Row) -> Option<OwnerRow> {
        Some(OwnerRow {
            id: row.id,
            owner: row.owner,
        })
    }

    fn is_in(_: &'a Row) -> bool {
        true
    }

    #[tactic(auto, unfolding(crate::specs::Rows::owner_at))]
    fn take(from: &mut Take<'a>) -> Result<OwnerRow, Short> {
        let id = from.u32()?;
        let owner = from.u8()?;
        Ok(OwnerRow { id, owner })
    }

    #[tactic(auto, unfolding(sim_base::specs::Spelling::u32_bytes))]
    fn tell<K: ByteSink>(&self, out: &mut K) -> Result<(), K::Fault> {
        let [a, b, c, d] = self.id.to_le_bytes();
        out.tell(&[a, b, c, d, self.owner])
    }

    ghost read_back = { owner_back };

    ghost no_prefix = { prefix_nil owner_at owner_bytes IsOwner owner_back };

    ghost few_bytes = { owner_few };
}

/// The health of an entity that has one.
#[derive(Drop)]
pub struct HealthRow {
    pub id: u32,
    pub health: Fixed,
}

impl Model for HealthRow {
    ghost use Rattle.std.specs.Prelude.{ℕ, ℤ};

    ghost Value = { ℕ × ℤ };

    ghost view = { λ row. (row.id, row.health) };
}

impl<'a> RowForm<'a> for HealthRow {
    ghost use Rattle.sim_base.specs.Spelling.{health_bytes, health_part};
    ghost use Rattle.sim_bytes.specs.{Laws.health_back, Laws.health_few, Laws.prefix_nil, Rows.IsHealth, Rows.health_at, Rows.with_id};

    ghost TAG = { 4 };

    ghost is_row = { IsHealth };

    ghost spelled = { health_bytes };

    ghost row_at = { health_at };

    ghost in_row = { with_id health_part };

    fn tag() -> u8
        ensures { result ≡ 4 }
    {
        4
    }

    fn of(row: &'a Row) -> Option<HealthRow> {
        match row.health {
            None => None,
            Some(health) => Some(HealthRow { id: row.id, health }),
        }
    }

    fn is_in(row: &'a Row) -> bool {
        row.health.is_some()
    }

    #[tactic(auto, unfolding(crate::specs::Rows::health_at))]
    fn take(from: &mut Take<'a>) -> Result<HealthRow, Short> {
        let id = from.u32()?;
        let raw = from.i32()?;
        Ok(HealthRow {
            id,
            health: Fixed::from_raw(raw),
        })
    }

    #[tactic(auto, unfolding(sim_base::specs::Spelling::u32_bytes, sim_base::specs::Spelling::i32_bytes))]
    fn tell<K: ByteSink>(&self, out: &mut K) -> Result<(), K::Fault> {
        let [a, b, c, d] = self.id.to_le_bytes();
        let [e, f, g, h] = self.health.raw().to_le_bytes();
        out.tell(&[a, b, c, d, e, f, g, h])
    }

    ghost read_back = { health_back };

    ghost no_prefix = { prefix_nil health_at health_bytes IsHealth health_back };

    ghost few_bytes = { health_few };
}

/// Whom an entity attacks, or 0, and the turns until it may hit again.
#[derive(Drop)]
pub struct AttackRow {
    pub id: u32,
    pub target: u32,
    pub cooldown: u16,
}

impl Model for AttackRow {
    ghost use Rattle.std.specs.Prelude.{ℕ};

    ghost Value = { ℕ × (ℕ × ℕ) };

    ghost view = { λ row. (row.id, (row.target, row.cooldown)) };
}

impl<'a> RowForm<'a> for AttackRow {
    ghost use Rattle.sim_base.specs.Spelling.{attack_bytes, attack_part};
    ghost use Rattle.sim_bytes.specs.{Laws.attack_back, Laws.attack_few, Laws.prefix_nil, Rows.IsAttack, Rows.attack_at, Rows.with_id};

    ghost TAG = { 6 };

    ghost is_row = { IsAttack };

    ghost spelled = { attack_bytes };

    ghost row_at = { attack_at };

    ghost in_row = { with_id attack_part };

    fn tag() -> u8
        ensures { result ≡ 6 }
    {
        6
    }

    fn of(row: &'a Row) -> Option<AttackRow> {
        match row.attack {
            None => None,
            Some(aim) => Some(AttackRow {
                id: row.id,
                target: aim.target,
                cooldown: aim.cooldown,
            }),
        }
    }

    fn is_in(row: &'a Row) -> bool {
        row.attack.is_some()
    }

    #[tactic(auto, unfolding(crate::specs::Rows::attack_at))]
    fn take(from: &mut Take<'a>) -> Result<AttackRow, Short> {
        let id = from.u32()?;
        let target = from.u32()?;
        let cooldown = from.u16()?;
        Ok(AttackRow {
            id,
            target,
            cooldown,
        })
    }

    #[tactic(auto, unfolding(sim_base::specs::Spelling::u32_bytes, sim_base::specs::Spelling::u16_bytes))]
    fn tell<K: ByteSink>(&self, out: &mut K) -> Result<(), K::Fault> {
        let [a, b, c, d] = self.id.to_le_bytes();
        let [e, f, g, h] = self.target.to_le_bytes();
        let [i, j] = self.cooldown.to_le_bytes();
        out.tell(&[a, b, c, d, e, f, g, h, i, j])
    }

    ghost read_back = { attack_back };

    ghost no_prefix = { prefix_nil attack_at attack_bytes IsAttack attack_back };

    ghost few_bytes = { attack_few };
}

/// Whether an entity that can attack holds its place.
#[derive(Drop)]
pub struct StanceRow {
    pub id: u32,
    pub hold: bool,
}

impl Model for StanceRow {
    ghost use Rattle.std.specs.Prelude.{ℕ, Bool};

    ghost Value = { ℕ × Bool };

    ghost view = { λ row. (row.id, row.hold) };
}

impl<'a> RowForm<'a> for StanceRow {
    ghost use Rattle.sim_base.specs.Spelling.{stance_bytes, stance_part};
    ghost use Rattle.sim_bytes.specs.{Laws.prefix_nil, Laws.stance_back, Laws.stance_few, Rows.IsStance, Rows.stance_at, Rows.with_id};

    ghost TAG = { 7 };

    ghost is_row = { IsStance };

    ghost spelled = { stance_bytes };

    ghost row_at = { stance_at };

    ghost in_row = { with_id stance_part };

    fn tag() -> u8
        ensures { result ≡ 7 }
    {
        7
    }

    fn of(row: &'a Row) -> Option<StanceRow> {
        match row.attack {
            None => None,
            Some(aim) => Some(StanceRow {
                id: row.id,
                hold: aim.hold,
            }),
        }
    }

    fn is_in(row: &'a Row) -> bool {
        row.attack.is_some()
    }

    #[tactic(auto, unfolding(crate::specs::Rows::stance_at))]
    fn take(from: &mut Take<'a>) -> Result<StanceRow, Short> {
        let id = from.u32()?;
        let hold = from.u8()?;
        Ok(StanceRow {
            id,
            hold: hold != 0,
        })
    }

    #[tactic(auto, unfolding(sim_base::specs::Spelling::u32_bytes))]
    fn tell<K: ByteSink>(&self, out: &mut K) -> Result<(), K::Fault> {
        let [a, b, c, d] = self.id.to_le_bytes();
        out.tell(&[a, b, c, d, u8::from(self.hold)])
    }

    ghost read_back = { stance_back };

    ghost no_prefix = { prefix_nil stance_at stance_bytes IsStance stance_back };

    ghost few_bytes = { stance_few };
}
