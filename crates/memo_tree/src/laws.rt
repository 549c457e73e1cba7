//! What holds of a tree with its kept layouts.
//!
//! A law is proved where it is a contract, so each function here has one and computes nothing.
ghost use Rattle.memo_tree.specs.Counted.{StepsLaw, VisitsLaw};

/// Each step of a pass after an edit is a layout that the edit needs, told by ids; none is taken
/// twice.
pub fn a_pass_takes_what_an_edit_needs()
    ensures { StepsLaw }
{}

/// Each step that lays a tree out is a layout that the one of the tree needs, told by ids; none is
/// taken twice.
pub fn a_start_takes_what_a_tree_needs()
    ensures { VisitsLaw }
{}
