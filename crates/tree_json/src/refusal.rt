use crate::TreeFault;
use fixed_units::Memory;
use thiserror::Error;

/// Why a JSON value gave no tree.
#[derive(Clone, Copy, Debug, PartialEq, Eq, Error)]
pub enum TreeRefusal {
    /// An element is faulty, and none before it.
    #[error("element {} has the fault {}", .0.element, .0.kind)]
    Fault(TreeFault),
    /// Memory was refused.
    #[error("memory was refused")]
    Memory,
}

impl From<Memory> for TreeRefusal {
    ghost use Rattle.std.specs.Prelude.{◌≡◌};
    ghost use Rattle.tree_json.specs.declared.refusal.TreeRefusal.TheVariants.{Memory as OutOfMemory};

    ghost from_gives = { λ _ refusal. refusal ≡ OutOfMemory };

    fn from(_: Memory) -> Self {
        TreeRefusal::Memory
    }
}
