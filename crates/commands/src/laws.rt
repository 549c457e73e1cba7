//! What holds of the replies to all scripts.
//!
//! A law is proved where it is a contract, so each function here has one and computes nothing.
ghost use Rattle.commands.specs.Laws.{AcceptedLaw, CountedLaw, RepliesLaw, UnchangedLaw};

/// A line that isn't answered by `ok` leaves the tree, its next id and the metrics as they were.
pub fn only_an_accepted_line_changes_the_tree()
    ensures { UnchangedLaw }
{}

/// `ok` answers an edit that the tree has no reason to refuse and that leaves it in range, and the
/// tree is then the edited one.
pub fn an_accepted_line_edits_the_tree()
    ensures { AcceptedLaw }
{}

/// The reply to each line is the one over the tree as edited by all lines before it.
pub fn each_reply_is_over_the_tree_as_edited_so_far()
    ensures { RepliesLaw }
{}

/// `gen` counts an edit exactly where `edit` would answer it by `ok`, and its tree changes as
/// there.
pub fn gen_counts_what_ok_would_answer()
    ensures { CountedLaw }
{}
