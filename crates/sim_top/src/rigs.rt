//! The first of the rigs with which a run plays: it is taken out of its list while a match is played, and put back.

ghost use Rattle.std.specs.Prelude.{◌≡◌, ◌<◌, ◌∷◌, length, vec_capacity};

use sim_system::Rig;

/// Takes the first rig out.
pub fn take_first(rigs: &mut Vec<Rig>) -> Rig
    requires { 0 < length rigs.old.items }
    ensures items { rigs.old.items ≡ result ∷ rigs.new.items }
    ensures room { vec_capacity rigs.new ≡ vec_capacity rigs.old }
{
    rigs.remove(0)
}

/// Puts one before the others, for which there is room.
pub fn put_first(rigs: &mut Vec<Rig>, rig: Rig)
    requires { length rigs.old.items < vec_capacity rigs.old }
    ensures items { rigs.new.items ≡ rig ∷ rigs.old.items }
    ensures room { vec_capacity rigs.new ≡ vec_capacity rigs.old }
{
    match rigs.insert(0, rig) {
        Ok(()) => {}
        Err(_) => unreachable!(),
    }
}
