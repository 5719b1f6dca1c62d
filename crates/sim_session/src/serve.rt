//! The run of a schedule: each arrival is heard and its answer is printed before the next one is heard.

ghost use Rattle.{sim_lists.specs.{Arrivals.plain_arrival, StepLists.{IsFromClient, IsSchedule}}, sim_plain.specs.Messages.Arrival as PlainArrival};
ghost use Rattle.{sim_report.specs.Downs.post_line, sim_server.specs.Standing.{Answers, IsClient, server_of as plain_server, StandsFor}};
ghost use Rattle.sim_session.specs.Served.{history, kept_lines, kept_of, said_lines, served_text as text_of_schedule};
ghost use Rattle.std.specs.Prelude.{All, flat_map, IfOk, length, List, map, OnOk, string_bytes, ℕ, ◌++◌, ◌≡◌};

use sim_base::{Global, OutOfMemory};
use sim_lists::{Arrival, Arrivals, Said, Schedule};
use sim_report::{push_kept, push_post, push_released};
use sim_server::{Posts, Server};

/// What is printed of a schedule.
pub fn served_text(alloc: Global, schedule: Schedule) -> Result<String, OutOfMemory>
    requires { IsSchedule schedule }
    ensures { IfOk result (λ text. string_bytes text ≡ text_of_schedule schedule) }
{
    let turns = schedule.turns;
    let mut server = Server::new(
        alloc,
        schedule.clients,
        schedule.active,
        schedule.delay,
        turns,
    )?;
    let mut text = String::new(alloc);
    push_said(&mut server, schedule.arrivals, &mut text)?;
    push_released(server.released(), &mut text)?;
    push_all_kept(&server, turns, &mut text)?;
    Ok(text)
}

// Hears each arrival, and appends what is said at it.
fn push_said(server: &mut Server, arrivals: Arrivals, text: &mut String) -> Result<(), OutOfMemory>
    requires { All (IsFromClient server.old.rules.clients) arrivals }
    ensures stands { OnOk result ((active : ℕ) (h : List (PlainArrival (List ℕ))) → StandsFor server.old active h
        → StandsFor server.new active (history h (map plain_arrival arrivals))) }
    ensures text { OnOk result ((active : ℕ) (h : List (PlainArrival (List ℕ))) → StandsFor server.old active h
        → string_bytes text.new ≡ string_bytes text.old ++ said_lines server.old.rules active h (map plain_arrival arrivals)) }
    ensures rules { OnOk result (server.new.rules ≡ server.old.rules) }
{
    for arrival in arrivals.into_items() {
        let posts = answer(server, arrival)?;
        push_posts(&posts, text)?;
    }
    Ok(())
}

// What is said at an arrival.
fn answer(server: &mut Server, arrival: Arrival) -> Result<Posts, OutOfMemory>
    requires { IsClient server.old arrival.from }
    ensures rules { server.new.rules ≡ server.old.rules }
    ensures answers { (active : ℕ) (h : List (PlainArrival (List ℕ))) → StandsFor server.old active h
        → Answers server.old active h (plain_arrival arrival) result server.new }
{
    let Arrival { from, said } = arrival;
    match said {
        Said::Heard { up } => server.hear(from, up),
        Said::Cut => server.cut(from),
        Said::Raw { bytes } => server.hear_frame(from, bytes.as_slice()),
    }
}

fn push_posts(posts: &Posts, text: &mut String) -> Result<(), OutOfMemory>
    ensures { OnOk result (string_bytes text.new ≡ string_bytes text.old ++ flat_map post_line posts.now) }
{
    for post in posts.as_slice() {
        push_post(post, text)?;
    }
    Ok(())
}

/// Appends a line of each turn, up to so many, of which the server keeps commands.
pub fn push_all_kept(server: &Server, turns: u32, text: &mut String) -> Result<(), OutOfMemory>
    ensures { OnOk result (string_bytes text.new ≡ string_bytes text.old ++ kept_lines (plain_server server.now).kept turns) }
{
    for i in 0..turns {
        push_if_kept(server, i + 1, text)?;
    }
    Ok(())
}

fn push_if_kept(server: &Server, turn: u32, text: &mut String) -> Result<(), OutOfMemory>
    ensures { OnOk result (string_bytes text.new ≡ string_bytes text.old ++ kept_of turn (length ((plain_server server.now).kept turn))) }
{
    let count = server.kept(turn).len();
    if count == 0 {
        return Ok(());
    }
    push_kept(turn, count, text)
}
