use fixed_units::{LayRefusal, Memory};
use thiserror::Error;
use tree_edits::EditRefusal;

/// Why a session didn't carry an edit out; it then holds what it held.
#[derive(Clone, Copy, Debug, PartialEq, Eq, Error)]
pub enum SessionRefusal {
    /// The edit is refused for this reason, which is never want of memory.
    #[error("the edit is refused: {0}")]
    Edit(EditRefusal),
    /// A size of the edited tree's layout is out of range.
    #[error("a size is out of range")]
    Range,
    /// Memory was refused.
    #[error("memory was refused")]
    Memory,
}

impl From<Memory> for SessionRefusal {
    ghost use Rattle.std.specs.Prelude.{◌≡◌};
    ghost use Rattle.edit_session.specs.declared.refusal.SessionRefusal.TheVariants.{Memory as OutOfMemory};

    ghost from_gives = { λ _ refusal. refusal ≡ OutOfMemory };

    fn from(_: Memory) -> Self {
        SessionRefusal::Memory
    }
}

impl From<EditRefusal> for SessionRefusal {
    ghost use Rattle.std.specs.Prelude.{◌≡◌};
    ghost use Rattle.edit_session.specs.Refusals.{of_edit};

    ghost from_gives = { λ reason refusal. refusal ≡ of_edit reason };

    fn from(reason: EditRefusal) -> Self {
        match reason {
            EditRefusal::Memory => SessionRefusal::Memory,
            _ => SessionRefusal::Edit(reason),
        }
    }
}

impl From<LayRefusal> for SessionRefusal {
    ghost use Rattle.std.specs.Prelude.{◌≡◌};
    ghost use Rattle.edit_session.specs.Refusals.{of_layout};

    ghost from_gives = { λ refused refusal. refusal ≡ of_layout refused };

    fn from(refused: LayRefusal) -> Self {
        match refused {
            LayRefusal::Range => SessionRefusal::Range,
            LayRefusal::Memory => SessionRefusal::Memory,
        }
    }
}
