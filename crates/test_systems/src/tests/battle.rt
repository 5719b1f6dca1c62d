//! A battle in which each sort of note is told and each sort of question is asked.

ghost use Rattle.{sim_client.specs.StageWords.AreCleared, sim_system.specs.Meanings.HaveKinds, sim_system.specs.RigWords.systems_of};
ghost use Rattle.std.specs.Prelude.{◌≡◌, length, All};

use crate::tests::runs::{ended, print_on};
use sim_base::{Global, OutOfMemory};
use sim_range::Range;
use sim_system::{Rig, System};
use sim_top::Status;
use test_runs::Printed;

// Soldiers of two players who kill each other in two turns. One player builds a hut, and a third one resigns.
const BATTLE: &str =
    r#"{"size":[24,16],"closed":[],"players":[[2],[1],[]],"cap":9,"delay":1,"turns":2,"seed":5,"templates":[{"@name":"soldier","Health":{"Max":10},"Motion":{"Speed":9},"Attack":{"Hack":20,"Range":2,"Vision":12,"Repeat":1}},{"@name":"hut","Health":{"Max":9},"Obstruct":{"Width":2,"Depth":2}}],"entities":[["soldier",1,"2.5","2.5"],["soldier",2,"3.5","2.5"],["soldier",1,"2.5","6.5"],["soldier",2,"14.5","2.5"],["hut",3,"20.5","8.5"],["soldier",3,"15.5","2.5"]],"commands":[[1,1,"place",1,"8.5","12.5"],[1,1,"attack",[4],3],[1,2,"walk",[5],"17.5","2.5"],[1,3,"resign"]]}"#;

// Its digests.
const LINES: &str =
    "turn 0 eee3e0c1c93b039cba239d6b41ae0f7e\nturn 1 690c5d2d07468a83f550ab6ade49883a\nturn 2 8eee8b34e448d09db480fd31798dade3\n";

/// Plays the battle on these rigs.
pub fn battle(alloc: Global, rigs: Vec<Rig>) -> Result<Printed, OutOfMemory>
    requires eight { length rigs.items ≡ 8 }
    requires kinds { All (λ r. HaveKinds (systems_of r ⟦<dyn System as System>⟧)) rigs.items }
    requires cleared { All (λ r. AreCleared (systems_of r ⟦<dyn System as System>⟧)) rigs.items }
{
    print_on(alloc, &["play", "m"], &[("m", BATTLE.as_bytes())], rigs)
}

/// Whether a run ended well, with its digests.
pub fn is_battle(printed: &Printed) -> bool {
    ended(printed, Status::Done, LINES)
}

/// A range that keeps whom each sees, or looks.
pub fn range(alloc: Global, keeps: bool) -> Range {
    if keeps {
        Range::new(alloc)
    } else {
        Range::looking(alloc)
    }
}
