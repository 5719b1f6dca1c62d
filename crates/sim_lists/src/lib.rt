//! Lists that are played as files: a schedule of arrivals at a server, and the steps of a session.
//!
//! It promises the one list that the bytes of a file spell, or the number of the first item that is refused. It stands on
//! `sim_json` for the values of JSON, on `sim_json` for commands, on `sim_base` for steps, and on `sim_wire` for the
//! messages.
//! `docs/FORMATS.md` has the form.
//!
//! - `schedule`: the records of a schedule.
//! - `fault`: how a list is refused.
//! - `hexadecimal`: digests, states and raw bytes as text.
//! - `arrivals`: one arrival.
//! - `reading`: the whole file.
//! - `step_list`: the record of a list of steps.
//! - `steps`: one step.
//! - `step_reading`: the whole file of steps.
//! - `laws`: what the number of a refusal says.
#![tactic(auto)]

mod arrivals;
mod fault;
mod hexadecimal;
mod laws;
mod reading;
mod schedule;
mod step_list;
mod step_reading;
mod steps;

pub use arrivals::arrival_of;
pub use fault::ListFault;
pub use laws::{arrival_index_is_least, step_index_is_least};
pub use reading::schedule_of;
pub use schedule::{Arrival, Arrivals, Said, Schedule};
pub use step_list::StepList;
pub use step_reading::steps_of;
pub use steps::step_of;
