use crate::Memory;
use thiserror::Error;

/// Why something was not laid out.
#[derive(Clone, Copy, Debug, PartialEq, Eq, Error)]
pub enum LayRefusal {
    /// A font size lies outside 0 to 2^20 units, or a number that is stored outside -2^30 to 2^30.
    #[error("a size is out of range")]
    Range,
    /// Memory was refused.
    #[error("memory was refused")]
    Memory,
}

impl From<Memory> for LayRefusal {
    ghost use Rattle.std.specs.Prelude.{◌≡◌};
    ghost use Rattle.fixed_units.specs.declared.refusal.LayRefusal.TheVariants.{Memory as OutOfMemory};

    ghost from_gives = { λ _ refusal. refusal ≡ OutOfMemory };

    fn from(_: Memory) -> Self {
        LayRefusal::Memory
    }
}
