ghost use Rattle.std.specs.Prelude.{◌≡◌};
ghost use Rattle.tree_edits.specs.Applying.{IsProperEdit};
ghost use Rattle.edit_ring.specs.Grounds.{Changes, GroundTold, IsStanding, Shows, StepBound, StepsByElements};

use box_writer::Placed;
use fixed_units::{Memory, Steps};
use font_metrics::Metrics;
use std::alloc::Global;
use std::sync::ledger::Ledger;
use thiserror::Error;
use tree_edits::{Edit, EditRefusal};

/// Why a ground didn't carry an edit out; it is then as it was.
#[derive(Clone, Copy, Debug, PartialEq, Eq, Error)]
pub enum GroundRefusal {
    /// The tree gives this reason, which is never want of memory.
    #[error("the edit is refused: {0}")]
    Edit(EditRefusal),
    /// The edited tree isn't good.
    #[error("the edited tree isn't good")]
    Range,
    /// Memory was refused.
    #[error("memory was refused")]
    Memory,
}

impl From<Memory> for GroundRefusal {
    ghost use Rattle.std.specs.Prelude.{◌≡◌};
    ghost use Rattle.edit_ring.specs.declared.ground.GroundRefusal.TheVariants.{Memory as OutOfMemory};

    ghost from_gives = { λ _ refusal. refusal ≡ OutOfMemory };

    fn from(_: Memory) -> Self {
        GroundRefusal::Memory
    }
}

/// A tree that can be edited and shown, with the metrics of a font. It calls some trees good, has a
/// list of boxes and marks for each of these, and says which steps an edit of a tree may take.
pub trait Ground: Drop {
    /// Its tree and its metrics, which trees are good, and the boxes and marks of each: these two
    /// are told by the root alone.
    ghost told: { Self → GroundTold };

    /// Which steps an edit that a tree takes may have, under these metrics.
    ghost takes: { StepBound };

    /// Carries an edit out and answers its inverse.
    fn change<L: Ledger>(
        &mut self,
        alloc: Global,
        edit: Edit,
        steps: &mut Steps<L>,
    ) -> Result<Edit, GroundRefusal>
        requires proper { IsProperEdit edit }
        ensures { Changes takes (told self.old) (told self.new) edit steps.old steps.new result };

    /// The boxes and marks of the tree.
    fn show(&mut self, alloc: Global) -> Result<Placed, Memory>
        ensures { Shows (told self.old) (told self.new) result };

    /// The metrics. It takes no memory.
    fn metrics(&self) -> &Metrics
        ensures exact { result.now ≡ (told self.now).metrics }
        ensures standing { IsStanding (told self.now) };

    /// A later next id makes no difference to the steps of an edit that gives no new ids.
    ghost steps_by_elements: { StepsByElements takes };
}
