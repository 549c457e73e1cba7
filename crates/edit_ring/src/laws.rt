//! What edits, undone and made again, come to.
//!
//! A law is proved where it is a contract, so each function here has one and computes nothing.
ghost use Rattle.edit_ring.specs.Undoing.{UndoLaw, WayBackLaw};

/// Undoing some edits gives the tree of before them.
pub fn undone_edits_leave_the_tree_of_before()
    ensures { UndoLaw }
{}

/// Undoing and redoing are each the way back from the other.
pub fn each_is_the_way_back()
    ensures { WayBackLaw }
{}
