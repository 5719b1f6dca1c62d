//! A match that is played on a board, and the lines that are printed of it.
//!
//! It promises the lines and the states of the definition, that the systems of the rig stand for the state in which the match
//! ends, and that each was built once at most. It stands on `sim_turn` and `sim_stock`, which play the turns, on the sights and
//! territories that follow their states, and on the texts of `sim_report`.
//!
//! - `lines`: a line for each turn of a board.
//! - `matches`: a match from its first state or from a stored one, with a rig that is handed back.
//! - `rejoin`: a match that a second client joins late, with a rig for each.
//! - `trial`: the line of a trial.
//! - `market`: the paid turns of a match with an economy; `due`: their commands; `balances`: what each player has in the end;
//!   `paid_matches`: such a match with a rig that is handed back.
//! - `following`: a board that is played while a sight follows its states.
//! - `realm`: the territories of a turn of a match.
//! - `holdings`: what is told of them.
//! - `sights`: what the players of a match see at a turn, and have explored up to it.
//! - `films`: the states of a match, so many turns apart.
//! - `own`: the turns of a match file; `logs`: a match that is played by the commands of a log, with the digests of its states.
#![tactic(auto)]

mod balances;
mod due;
mod films;
mod following;
mod holdings;
mod lines;
mod logs;
mod market;
mod matches;
mod own;
mod paid_matches;
mod realm;
mod rejoin;
mod sights;
mod trial;

pub use films::film_text;
pub use logs::{digests_after, log_after, match_log};
pub use matches::{play_text, resume_text, state_at};
pub use paid_matches::stock_text;
pub use realm::realm_text;
pub use rejoin::rejoin_text;
pub use sights::{resight_text, sight_at};
pub use trial::push_trial;
