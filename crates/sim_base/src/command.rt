//! The seven commands that a player may give.

ghost use Rattle.std.specs.Prelude.{◌≡◌, IfOk};

use crate::{Ids, OutOfMemory, Point};

/// What a player orders: entities by their ids, and a point, a target or a template by its number.
#[derive(Debug, Drop)]
pub enum Command {
    Walk { ids: Ids, to: Point },
    Stop { ids: Ids },
    Attack { ids: Ids, target: u32 },
    Delete { ids: Ids },
    Place { template: u16, at: Point },
    Train { building: u32, template: u16 },
    Resign,
}

impl Command {
    /// The same command, in memory of its own.
    pub fn copy(&self) -> Result<Command, OutOfMemory>
        ensures { IfOk result (λ copied. copied ≡ self.now) }
    {
        match self {
            Command::Walk { ids, to } => Ok(Command::Walk {
                ids: ids.copy()?,
                to: *to,
            }),
            Command::Stop { ids } => Ok(Command::Stop { ids: ids.copy()? }),
            Command::Attack { ids, target } => Ok(Command::Attack {
                ids: ids.copy()?,
                target: *target,
            }),
            Command::Delete { ids } => Ok(Command::Delete { ids: ids.copy()? }),
            Command::Place { template, at } => Ok(Command::Place {
                template: *template,
                at: *at,
            }),
            Command::Train { building, template } => Ok(Command::Train {
                building: *building,
                template: *template,
            }),
            Command::Resign => Ok(Command::Resign),
        }
    }
}

/// A command and the player who gives it, from 1 to 8.
#[derive(Debug, Drop)]
pub struct PlayerCommand {
    pub player: u8,
    pub command: Command,
}

impl PlayerCommand {
    /// The same, in memory of its own.
    pub fn copy(&self) -> Result<PlayerCommand, OutOfMemory>
        ensures { IfOk result (λ copied. copied ≡ self.now) }
    {
        Ok(PlayerCommand {
            player: self.player,
            command: self.command.copy()?,
        })
    }
}
