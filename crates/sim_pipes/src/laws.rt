//! Theorems about the definitions, each the contract of a function that does nothing.

ghost use Rattle.sim_pipes.specs.Posts.{ClientsAreTold, EachIsTold, SenderIsNoticed};

/// Each client gets what the server says to it, nobody else is told anything, and who is heard is told of the notice that
/// this gives.
pub fn posts_reach_their_clients<Carried>()
    ensures each { EachIsTold Carried }
    ensures clients { ClientsAreTold Carried }
    ensures noticed { SenderIsNoticed Carried }
{}
