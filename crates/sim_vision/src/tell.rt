//! What is told of a sight: a line for each player.

ghost use Rattle.std.specs.Prelude.{◌≡◌, ◌≤◌, ◌++◌, length, take, OnOk, OnErr, nat_lt, string_bytes, count_by};
ghost use Rattle.sim_vision.specs.Told.{explored_in, sight_line, sight_text, visible_in};

use crate::sight::Sight;
use sim_base::OutOfMemory;

/// Appends how many cells each player sees and how many he has explored, or leaves the text as it was.
pub fn push_sight(sight: &Sight<'_>, out: &mut String) -> Result<(), OutOfMemory>
    ensures ok { OnOk result (string_bytes out.new ≡ string_bytes out.old ++ sight_text sight.now) }
    ensures err { OnErr result (string_bytes out.new ≡ string_bytes out.old) }
{
    let length = out.len();
    match push_lines(sight, out) {
        Ok(()) => Ok(()),
        Err(stop) => {
            out.truncate(length);
            Err(stop)
        }
    }
}

// After an error some of the lines may stand behind the old text.
fn push_lines(sight: &Sight<'_>, out: &mut String) -> Result<(), OutOfMemory>
    ensures ok { OnOk result (string_bytes out.new ≡ string_bytes out.old ++ sight_text sight.now) }
    ensures err { OnErr result (take (length (string_bytes out.old)) (string_bytes out.new) ≡ string_bytes out.old) }
{
    for player in 1..sight.players() + 1 {
        push_line(sight, player, out)?;
    }
    Ok(())
}

fn push_line(sight: &Sight<'_>, player: u8, out: &mut String) -> Result<(), OutOfMemory>
    requires first { 1 ≤ player }
    requires last { player ≤ sight.now.setup.players }
    ensures ok { OnOk result (string_bytes out.new ≡ string_bytes out.old ++ sight_line player (visible_in sight.now player) (explored_in sight.now player)) }
    ensures err { OnErr result (string_bytes out.new ≡ string_bytes out.old) }
{
    let visible = visible_cells(sight.counts(player));
    let explored = explored_cells(sight.explored(player));
    let mut line = String::new(*out.allocator());
    writeln!(line, "sight {player} visible {visible} explored {explored}")?;
    out.push_str(line.as_str())?;
    Ok(())
}

// How many cells a row sees.
fn visible_cells(counts: &[u16]) -> usize
    ensures { result ≡ count_by (nat_lt 0) counts.now }
{
    counts.iter().filter(|count| 0 < **count).count()
}

// How many cells are explored.
fn explored_cells(flags: &[bool]) -> usize
    ensures { result ≡ count_by (λ flag. flag) flags.now }
{
    flags.iter().filter(|flag| **flag).count()
}
