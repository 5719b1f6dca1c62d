//! What a realm tells: how many cells each player holds, how many of these are rooted, and a digest of all holders.

ghost use Rattle.sim_play.specs.{Common.range_with_len, Realms.{held as held_in, held_rooted as held_rooted_in, player_line, TellsRealm}};
ghost use Rattle.std.specs.{List.flat_map, Prelude.{IfOk, if◌then◌else◌, OnOk, slice_index, string_bytes, ℕ, ◌++◌, ◌+◌, ◌<◌, ◌==◌, ◌≡◌, ◌≤◌}};

use md5::{Digest, Md5};
use sim_base::{Global, OutOfMemory};
use sim_report::{push_holding, push_map};
use sim_territory::Realm;

// Nobody, or one of at most eight players.
const HOLDERS: usize = 9;

// A number of cells for each holder, by his number.
type Tally = [usize; HOLDERS];

/// The lines of a realm of so many players.
pub fn told(alloc: Global, realm: &Realm<'_>, players: u8) -> Result<String, OutOfMemory>
    requires few { players ≤ 8 }
    requires players { players ≡ realm.now.setup.players }
    ensures { IfOk result (λ text. TellsRealm realm.now (string_bytes text)) }
{
    let rooted = realm.rooted()?;
    let mut text = String::new(alloc);
    push_holdings(players, realm.holders(), rooted.as_slice(), &mut text)?;
    push_map(&Md5::digest(realm.holders()), &mut text)?;
    Ok(text)
}

// Appends a line for each player.
fn push_holdings(
    players: u8,
    holders: &[u8],
    rooted: &[bool],
    out: &mut String,
) -> Result<(), OutOfMemory>
    requires { players ≤ 8 }
    ensures { OnOk result (string_bytes out.new ≡ string_bytes out.old ++ flat_map (player_line holders.now rooted.now) (range_with_len 1 players)) }
{
    let all = held(holders);
    let joined = held_rooted(holders, rooted);
    for player in 1..players + 1 {
        let place = usize::from(player);
        push_holding(player, all[place], joined[place], out)?;
    }
    Ok(())
}

// How many cells each holder holds.
fn held(holders: &[u8]) -> Tally
    ensures { (player : ℕ) → player < 9 → slice_index result player ≡ held_in holders.now player }
{
    let mut tally = [0; HOLDERS];
    for holder in holders {
        count(&mut tally, *holder);
    }
    tally
}

// How many of these are rooted.
fn held_rooted(holders: &[u8], rooted: &[bool]) -> Tally
    ensures { (player : ℕ) → player < 9 → slice_index result player ≡ held_rooted_in holders.now rooted.now player }
{
    let mut tally = [0; HOLDERS];
    for cell in 0..holders.len().min(rooted.len()) {
        if rooted[cell] {
            count(&mut tally, holders[cell]);
        }
    }
    tally
}

// Counts a cell of a holder.
fn count(tally: &mut Tally, holder: u8)
    requires { (player : ℕ) → player < 9 → slice_index tally.old player < usize.MAX }
    ensures { (player : ℕ) → player < 9 → slice_index tally.new player ≡ slice_index tally.old player + (if holder == player then 1 else 0) }
{
    let place = usize::from(holder);
    if place < HOLDERS {
        tally[place] += 1;
    }
}
