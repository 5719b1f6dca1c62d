//! The orders of a trial: in the first turn each player sends all of his soldiers to the middle of the ground, in groups
//! that a command has room for.

ghost use Rattle.std.specs.{List.join_with_byte, Prelude.OnOk, Prelude.decimal, Prelude.map, Prelude.string_bytes, Prelude.◌++◌, Prelude.◌≡◌, Prelude.◌≤◌};
ghost use Rattle.sim_trial.specs.{Owned.id_at, Owned.ids_between, Trial.comma, Trial.commands_text, Trial.joined_after, Trial.walk_text, Trial.walks_of};

use crate::comma::push_comma;
use sim_base::OutOfMemory;

// How many entities a command names at most.
const GROUP: u32 = 256;

// Appends the commands of both players, if there is a turn to give them in.
pub(crate) fn push_commands(units: u32, turns: u32, text: &mut String) -> Result<(), OutOfMemory>
    requires some { 1 ≤ units }
    requires few { units ≤ 1000 }
    ensures { OnOk result (string_bytes text.new ≡ string_bytes text.old ++ commands_text units turns) }
{
    if turns == 0 {
        return Ok(());
    }
    push_walks(1, units, false, text)?;
    push_walks(2, units, true, text)
}

// Appends the commands of a player, behind those that stand there already.
fn push_walks(player: u32, units: u32, begun: bool, text: &mut String) -> Result<(), OutOfMemory>
    requires first { 1 ≤ player }
    requires last { player ≤ 2 }
    requires few { units ≤ 1000 }
    ensures { OnOk result (string_bytes text.new ≡ string_bytes text.old ++ joined_after begun (walks_of player units)) }
{
    let owned = (units + 2 - player) / 2;
    for group in 0..owned.div_ceil(GROUP) {
        push_comma(begun || group > 0, text)?;
        let from = group * GROUP;
        push_walk(player, from, owned.min(from + GROUP), text)?;
    }
    Ok(())
}

// Appends the command for a part of a player's soldiers, counted among his own.
fn push_walk(player: u32, from: u32, to: u32, text: &mut String) -> Result<(), OutOfMemory>
    requires ordered { from ≤ to }
    requires last { player ≤ 2 }
    requires few { to ≤ 1000 }
    ensures { OnOk result (string_bytes text.new ≡ string_bytes text.old ++ walk_text player (ids_between player from to)) }
{
    write!(text, "[1,{player},\"walk\",[")?;
    push_ids(player, from, to, text)?;
    text.push_str("],64,64]")?;
    Ok(())
}

fn push_ids(player: u32, from: u32, to: u32, text: &mut String) -> Result<(), OutOfMemory>
    requires ordered { from ≤ to }
    requires last { player ≤ 2 }
    requires few { to ≤ 1000 }
    ensures { OnOk result (string_bytes text.new ≡ string_bytes text.old ++ join_with_byte comma (map decimal (ids_between player from to))) }
{
    for place in from..to {
        push_comma(place > from, text)?;
        write!(text, "{}", id_of(player, place))?;
    }
    Ok(())
}

// The id of a player's soldier, by its place among his own: those of both take turns, from 2 on.
fn id_of(player: u32, place: u32) -> u32
    requires last { player ≤ 2 }
    requires few { place ≤ 1000 }
    ensures { result ≡ id_at player place }
{
    2 * place + player + 1
}
