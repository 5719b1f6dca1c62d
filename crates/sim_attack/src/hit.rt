//! The phase in which fighters hit.
//!
//! Each row fights against the state as it was; what landed hits take is kept in one sum for each row, at its place.

ghost use Rattle.sim_attack.specs.{Fights.{AreTaken, fought_on}, Finds.Knows};
ghost use Rattle.sim_base.specs.{Limits.{IsLooselyValid, IsSetup}, Turn.{Hit, hit, lands as lands_by}};
ghost use Rattle.sim_plans.specs.{Plans.{cooldown_change, fight_changes_of, hit_plan, hurt_changes_by, IsPlanOf}, SceneWords.Stands};
ghost use Rattle.std.specs.{Prelude.{All, IfOk, length, List, OnOk, ℕ, [], ◌++◌, ◌+◌, ◌<◌, ◌^◌, ◌∷◌, ◌≡◌, ◌≤◌}, Result.ForOk};

use crate::battle::Battle;
use crate::damage::taken;
use sim_base::{
    Aim, Change, Changes, Fixed, Global, Items, OutOfMemory, Row, Setup, State, next_word,
};
use sim_plans::{RowIndex, Scene, arms_of, is_near, resist_of};
use sim_system::System;

// For how many changes there is room beside one for each row: the word, and the healths that fall, which mostly are few.
const SPARE: usize = 64;

/// The changes by which fighters hit, all by the state of the scene. They fit in order, and give the phase.
pub fn hit_changes(alloc: Global, scene: &Scene<'_>) -> Result<Changes, OutOfMemory>
    requires { Stands scene.now ⟦<dyn System as System>⟧ }
    ensures { ForOk result (λ changes. IsPlanOf scene.now.setup.now scene.now.state.now changes (hit scene.now.setup.now scene.now.state.now)) }
{
    listed_hits(alloc, scene.setup, scene.state)
}

// The changes of all rows: first all fight, then the word is what it has come to, and then healths fall.
fn listed_hits(alloc: Global, setup: &Setup, state: &State) -> Result<Changes, OutOfMemory>
    requires limits { IsSetup setup.now }
    requires valid { IsLooselyValid setup.now state.now }
    ensures { IfOk result (λ changes. changes ≡ hit_plan setup.now state.now) }
{
    let rows = state.rows.as_slice();
    let room = rows.len().saturating_add(SPARE);
    let mut changes = Items::from_items(Vec::with_capacity(alloc, room)?);
    let mut damage = vec![in alloc; 0; rows.len()]?;
    let index = RowIndex::of(alloc, rows)?;
    let battle = Battle {
        setup,
        state,
        index: &index,
    };
    let mut word = state.word;
    for row in rows {
        word = battle.fight(&mut changes, &mut damage, row, word)?;
    }
    changes.push(Change::Word { word })?;
    for (at, row) in rows.iter().enumerate() {
        push_hurt(&mut changes, row, damage[at])?;
    }
    Ok(changes)
}

impl Battle<'_> {
    // The row fights. Answers the word afterwards.
    fn fight(
        &self,
        changes: &mut Changes,
        damage: &mut Vec<u64>,
        row: &Row,
        word: u64,
    ) -> Result<u64, OutOfMemory>
        requires known { Knows self.now row.now }
        requires word { word < 2 ^ 48 }
        requires long { length damage.old.items ≡ length self.now.state.now.rows }
        requires small { All (λ n. n ≤ 2 ^ 60) damage.old.items }
        ensures changes { OnOk result (changes.new ≡ changes.old ++ fight_changes_of self.now.setup.now self.now.state.now row.now) }
        ensures word { IfOk result (λ next. (hits : List Hit) → next ≡ (fought_on self.now.setup.now self.now.state.now word hits row.now).word) }
        ensures is_word { IfOk result (λ next. next < 2 ^ 48) }
        ensures damage { OnOk result ((hits : List Hit) → AreTaken self.now.state.now.rows hits damage.old.items
            → AreTaken self.now.state.now.rows (fought_on self.now.setup.now self.now.state.now word hits row.now).hits damage.new.items) }
        ensures small { OnOk result ((most : ℕ) → All (λ n. n ≤ most) damage.old.items → All (λ n. n ≤ most + 196608000) damage.new.items) }
    {
        let Some(aim) = row.attack else {
            return Ok(word);
        };
        let Some(arms) = arms_of(self.setup, row) else {
            return Ok(word);
        };
        if aim.cooldown > 0 {
            push_cooldown(changes, row.id, &aim, aim.cooldown - 1)?;
            return Ok(word);
        }
        let rows = self.state.rows.as_slice();
        let Some(at) = self.index.place_of(rows, aim.target) else {
            return Ok(word);
        };
        let target = &rows[at];
        if !is_near(&target.at, &row.at, arms.range) {
            return Ok(word);
        }
        let word = next_word(word);
        push_cooldown(changes, row.id, &aim, arms.repeat)?;
        if lands(word, arms.accuracy) {
            damage[at] += taken(&arms.harm, &resist_of(self.setup, target));
        }
        Ok(word)
    }
}

// Whether a hit lands with this word, where so many of a hundred do.
fn lands(word: u64, accuracy: u8) -> bool
    ensures { result ≡ lands_by word accuracy }
{
    (word >> 17) % 100 < u64::from(accuracy)
}

// The row must wait so many turns until it may hit again.
fn push_cooldown(
    changes: &mut Changes,
    id: u32,
    aim: &Aim,
    cooldown: u16,
) -> Result<(), OutOfMemory>
    ensures { OnOk result (changes.new ≡ changes.old ++ cooldown_change id aim.now cooldown ∷ []) }
{
    let aim = Aim { cooldown, ..*aim };
    changes.push(Change::Attack { id, aim })
}

// The row's health falls by what was taken, and not below 0.
fn push_hurt(changes: &mut Changes, row: &Row, taken: u64) -> Result<(), OutOfMemory>
    requires { taken < 2 ^ 62 }
    ensures { OnOk result (changes.new ≡ changes.old ++ hurt_changes_by row.now.id taken row.now.health) }
{
    if taken == 0 {
        return Ok(());
    }
    match row.health {
        Some(health) => {
            let left = (i64::from(health.raw()) - taken as i64).max(0);
            changes.push(Change::Health {
                id: row.id,
                health: Fixed::from_raw(left as i32),
            })
        }
        None => Ok(()),
    }
}
