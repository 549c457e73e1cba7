//! What holds of kept layouts, whatever the kinds of the elements are.
//!
//! A law is proved where it is a contract, so each function here has one and computes nothing.
ghost use Rattle.kept_results.specs.Closed.{ClosedLaw};
ghost use Rattle.kept_results.specs.Grown.{GrownCellsLaw};
ghost use Rattle.kept_results.specs.Laws.{KeptLaw, SealBackedLaw, SealLaw, SealOwnRunsLaw};

/// Where an entry and all that are reached from it by naming are closed, its run has the layout of
/// its element.
pub fn closed_entries_keep_layouts()
    ensures { ClosedLaw }
{}

/// Where the layout of an element is kept, all that it needs is kept too.
pub fn what_a_layout_needs_is_kept()
    ensures { KeptLaw }
{}

/// A pass that is done adds to the store the cells of layouts that it needs, and of none of them
/// twice.
pub fn a_pass_adds_the_cells_of_its_layouts()
    ensures { GrownCellsLaw }
{}

/// `seal` keeps the state, and each entry that is no older one, with its run; no mark is left, and
/// nothing is fresh.
pub fn seal_keeps_the_state()
    ensures state { SealLaw }
    ensures backed { SealBackedLaw }
    ensures own { SealOwnRunsLaw }
{}
