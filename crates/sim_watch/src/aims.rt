//! Who aims at whom: groups of ids whose key is their target. Nobody is listed under no target. Most notes take a target or let
//! one go, so half of the calls here are about none; they are asked to stand in their caller's place, where that is seen at once.

ghost use Rattle.std.specs.Prelude.{IfOk, OnOk, ℕ, ◌≡◌};
ghost use Rattle.sim_fact_lists.specs.{Changes.Ascend, Groups.AreGroups, Groups.joined_by, Groups.left_by, Groups.listed};
ghost use Rattle.sim_system.specs.{Notes.aim_of, Notes.kept, Notes.kept_of, declared.kind.Kind.TheVariants.Watch as WatchKind};
ghost use Rattle.sim_watch.specs.Aimers.{aim_key, HasRoomFor};

use sim_base::{Global, OutOfMemory};
use sim_fact_lists::Groups;
use sim_system::Fact;

/// Those of these facts.
pub fn groups_of(alloc: Global, facts: &[Fact]) -> Result<Groups, OutOfMemory>
    requires { Ascend facts.now }
    ensures { IfOk result (λ groups. AreGroups aim_key (kept_of WatchKind facts.now) groups.groups.items) }
{
    let mut groups = Groups::new(alloc);
    for fact in facts {
        make_room(&mut groups, alloc, fact.target)?;
        join(&mut groups, fact.id, fact.target);
    }
    Ok(groups)
}

/// Makes room for one more who aims at a target, if it is one.
#[inline(always)]
pub fn make_room(groups: &mut Groups, alloc: Global, target: u32) -> Result<(), OutOfMemory>
    ensures same { (k : ℕ) → listed k groups.new.groups.items ≡ listed k groups.old.groups.items }
    ensures room { OnOk result (HasRoomFor target groups.new.groups.items) }
{
    if target != 0 {
        groups.make_room(alloc, target)?;
    }
    Ok(())
}

/// An entity that aimed at this target, if it is one, does so no more.
#[inline(always)]
pub fn leave(groups: &mut Groups, id: u32, target: u32)
    ensures left { (k : ℕ) → listed k groups.new.groups.items ≡ left_by aim_key (kept WatchKind (aim_of id target)) k (listed k groups.old.groups.items) }
    ensures room { (k : ℕ) → HasRoomFor k groups.old.groups.items → HasRoomFor k groups.new.groups.items }
{
    if target != 0 {
        groups.leave(target, id);
    }
}

/// An entity aims at this target, if it is one. The room was made before.
#[inline(always)]
pub fn join(groups: &mut Groups, id: u32, target: u32)
    requires { HasRoomFor target groups.old.groups.items }
    ensures { (k : ℕ) → listed k groups.new.groups.items ≡ joined_by aim_key (kept WatchKind (aim_of id target)) k (listed k groups.old.groups.items) }
{
    if target != 0 {
        groups.join(target, id);
    }
}
