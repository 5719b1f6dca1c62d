//! The kinds of commands by their numbers.

ghost use Rattle.std.specs.Prelude.{◌≡◌, ◌<◌, ◌≤◌};
ghost use Rattle.sim_orders.specs.Orders.{kind_of as kind_by};

use sim_base::Command;

/// The number of a command's kind: 1 walk, 2 stop, 3 attack, 4 delete, 5 place, 6 train, 7 resign.
pub fn kind_of(command: &Command) -> u8
    ensures value { result ≡ kind_by command.now }
    ensures from_one { 0 < result }
    ensures to_seven { result ≤ 7 }
{
    match command {
        Command::Walk { .. } => 1,
        Command::Stop { .. } => 2,
        Command::Attack { .. } => 3,
        Command::Delete { .. } => 4,
        Command::Place { .. } => 5,
        Command::Train { .. } => 6,
        Command::Resign => 7,
    }
}
