//! A list of steps: what a session does, in order, and with how many clients it begins.

use sim_base::Steps;

/// The steps of a session that begins with so many clients, from the first on.
#[derive(Debug, Drop)]
pub struct StepList {
    pub clients: u8,
    pub steps: Steps,
}
