use crate::Edit;
use fixed_units::Memory;
use thiserror::Error;
use tree_json::TreeRefusal;

/// What a line of a script asks for.
#[derive(Debug, Drop)]
pub enum Command {
    /// To tell the layout of the tree as edited so far.
    Show,
    /// To edit the tree.
    Change(Edit),
}

/// Why a line gives no command.
#[derive(Clone, Copy, Debug, PartialEq, Eq, Error)]
pub enum CommandRefusal {
    /// It is no JSON, or not in the form of a command.
    #[error("the line is no command")]
    BadLine,
    /// Memory was refused.
    #[error("memory was refused")]
    Memory,
}

impl From<Memory> for CommandRefusal {
    ghost use Rattle.std.specs.Prelude.{◌≡◌};
    ghost use Rattle.tree_edits.specs.declared.command.CommandRefusal.TheVariants.{Memory as OutOfMemory};

    ghost from_gives = { λ _ refusal. refusal ≡ OutOfMemory };

    fn from(_: Memory) -> Self {
        CommandRefusal::Memory
    }
}

impl From<TreeRefusal> for CommandRefusal {
    ghost use Rattle.std.specs.Prelude.{◌≡◌};
    ghost use Rattle.tree_edits.specs.Commands.{of_element};

    ghost from_gives = { λ refusal given. given ≡ of_element refusal };

    fn from(refusal: TreeRefusal) -> Self {
        match refusal {
            TreeRefusal::Fault(_) => CommandRefusal::BadLine,
            TreeRefusal::Memory => CommandRefusal::Memory,
        }
    }
}
