//! A session as a ground: a ring keeps the inverses of its edits.
ghost use Rattle.edit_ring.specs.Grounds.{Changes, IsStanding, Shows};
ghost use Rattle.edit_session.specs.Undoable.{told};

use crate::refusal::SessionRefusal;
use crate::session::Session;
use box_writer::Placed;
use edit_ring::{Ground, GroundRefusal};
use fixed_units::{Memory, Steps};
use font_metrics::Metrics;
use std::alloc::Global;
use std::sync::ledger::Ledger;
use tree_edits::Edit;

/// A session whose edits can be undone by their inverses.
#[derive(Drop)]
pub struct Undoable {
    pub session: Session,
}

impl Ground for Undoable {
    ghost use Rattle.memo_tree.specs.Kept.{TakesNeeded};
    ghost use Rattle.edit_session.specs.Undoable.{told};
    ghost use Rattle.edit_session.specs.ByElements.{steps_by_elements};

    ghost told = { λ undoable. told undoable.session.held };

    ghost takes = { TakesNeeded };

    fn change<L: Ledger>(
        &mut self,
        alloc: Global,
        edit: Edit,
        steps: &mut Steps<L>,
    ) -> Result<Edit, GroundRefusal> {
        self.look();
        let changed = self.session.edit_back(alloc, edit, steps);
        self.look();
        match changed {
            Ok(back) => Ok(back),
            Err(SessionRefusal::Edit(reason)) => Err(GroundRefusal::Edit(reason)),
            Err(SessionRefusal::Range) => Err(GroundRefusal::Range),
            Err(SessionRefusal::Memory) => Err(GroundRefusal::Memory),
        }
    }

    fn show(&mut self, alloc: Global) -> Result<Placed, Memory> {
        self.look();
        self.session.show(alloc)
    }

    fn metrics(&self) -> &Metrics {
        self.look();
        self.session.metrics()
    }

    ghost steps_by_elements = { steps_by_elements };
}

impl Undoable {
    /// What is known of the tree: the call does nothing.
    fn look(&self)
        ensures { IsStanding (told self.now.session.held) }
    {
        self.session.metrics();
        self.session.layouts().tree().root();
    }
}
