//! The exports that `include/simcore.h` declares. Each decides nothing: it calls the function of `sim_embed`, `sim_held` or `sim_packed`
//! of its name, and puts what that answers where C wants it.
//!
//! No export has a `requires`, so that C can break none. What the types of the arguments need of C, that a pointer is not null, what
//! is written overlaps nothing, and a handle is no copy, the header says at its head.
//!
//! - `status`: the status of an answer, and the numbers of a refusal.
//! - `giving`: how an answer is put where C wants it.
//! - `level_one`: calls that keep nothing.
//! - `giving_run`, `running`: a command of the program, and how what it came to is put.
//! - `kept`, `handle`: a box as its address, and what C holds of it.
//! - `holding`: how a handle is opened and closed, and how a call reaches what it holds.
//! - `giving_held`, `standing`: how what a call of something held came to is put.
//! - `clients`, `servers`, `games`, `looks`: calls of what is held.
#![tactic(auto)]

mod clients;
mod games;
mod giving;
mod giving_held;
mod giving_run;
mod handle;
mod holding;
mod kept;
mod level_one;
mod looks;
mod running;
mod servers;
mod standing;
mod status;

pub use handle::Handle;
pub use standing::Standing;
pub use status::Fault;
