//! Why a value of JSON is no tree.

use sim_base::OutOfMemory;

/// Why a value of JSON is no tree. Where several causes stand together, `TooDeep` is named before `NotWhole`, and that
/// before `WrongKind`.
#[derive(Clone, Copy, Debug, PartialEq, Eq)]
pub enum TreeFault {
    /// It is otherwise no tree.
    WrongKind,
    /// A number is not whole.
    NotWhole,
    /// A value lies on level 33 or deeper.
    TooDeep,
    /// Memory was refused.
    OutOfMemory,
}

impl From<OutOfMemory> for TreeFault {
    ghost use Rattle.std.specs.Prelude.{◌≡◌};
    ghost use Rattle.sim_tree.specs.declared.fault.TreeFault.TheVariants.{OutOfMemory};

    ghost from_gives = { λ _ fault. fault ≡ OutOfMemory };

    fn from(_: OutOfMemory) -> TreeFault {
        TreeFault::OutOfMemory
    }
}
