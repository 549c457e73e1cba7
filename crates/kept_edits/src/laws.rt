//! What holds of changed memos.
//!
//! A law is proved where it is a contract, so each function here has one and computes nothing.
ghost use Rattle.kept_edits.specs.ByIds.{EditAtLaw, NeedLaw, PassNeedLaw};
ghost use Rattle.kept_edits.specs.EditPaths.{EditPathLaw};
ghost use Rattle.kept_edits.specs.Edited.{FollowLaw, OwnEditLaw, ParentEditLaw};
ghost use Rattle.kept_edits.specs.Endings.{AcceptedLaw, EntriesStayLaw, RefusedLaw};
ghost use Rattle.kept_edits.specs.Ids.{IdsLaw, OneWayLaw};
ghost use Rattle.kept_edits.specs.Known.{BesideLaw};
ghost use Rattle.kept_edits.specs.Laws.{BackLaw, BlankBackedLaw, BlankLaw, ChangeBackedLaw, ChangeLaw};
ghost use Rattle.kept_edits.specs.Need.{CountedLaw, StaysLaw};
ghost use Rattle.kept_edits.specs.Runs.{ChangeCountLaw, ChangeOwnRunsLaw, FollowBackedLaw};

/// Where the same is changed in a tree and in memos that agree with it, they agree again, whatever
/// the metrics are.
pub fn changed_memos_agree()
    ensures { ChangeLaw }
{}

/// So runs go on to have the layouts of all entries that count.
pub fn changed_memos_are_backed()
    ensures { ChangeBackedLaw }
{}

/// Memos that agree with a tree know of a changed tree what `known_on` needs.
pub fn memos_know_what_is_needed()
    ensures { BesideLaw }
{}

/// A change that is taken back leaves no trace.
pub fn changes_can_be_taken_back()
    ensures { BackLaw }
{}

/// Memos of which nothing is kept agree with their tree.
pub fn blank_memos_agree()
    ensures { BlankLaw }
{}

/// Whatever runs there are, they have all that is kept in such memos.
pub fn blank_memos_are_backed()
    ensures { BlankBackedLaw }
{}

/// What is kept of an element that an edit leaves alone stays as it is.
pub fn what_an_edit_leaves_alone_stays_kept()
    ensures { StaysLaw }
{}

/// Each step of a pass after an edit is a layout of an element that is new or on the way to the
/// edit, or one that wasn't needed before; none is taken twice.
pub fn a_pass_takes_what_is_counted()
    ensures { CountedLaw }
{}

/// In a whole tree there is one way to an id.
pub fn there_is_one_way_to_an_id()
    ensures { OneWayLaw }
{}

/// Each layout that is needed is of an element of the tree, and two of one id in one context are
/// one.
pub fn needed_layouts_are_told_by_ids()
    ensures { IdsLaw }
{}

/// An edit of a whole tree that isn't refused has one path.
pub fn an_edit_has_one_path()
    ensures { EditPathLaw }
{}

/// An edit of a whole tree that isn't refused is one change at the end of that path, and brings new
/// ids only.
pub fn an_edit_changes_the_end_of_its_path()
    ensures { EditAtLaw }
{}

/// Layouts that are needed after an edit and are counted by places are ones that the edit needs,
/// told by ids.
pub fn counted_layouts_are_needed()
    ensures { NeedLaw }
{}

/// Each step of a pass after an edit is a layout that the edit needs, told by ids; none is taken
/// twice.
pub fn a_pass_takes_what_an_edit_needs()
    ensures { PassNeedLaw }
{}

/// An edit that isn't refused is one change at the end of the way to the element that it names.
pub fn an_edit_is_a_change()
    ensures { OwnEditLaw }
{}

/// Where an edit takes or replaces an element, it is a change of the element over it.
pub fn an_edit_is_a_change_of_a_parent()
    ensures { ParentEditLaw }
{}

/// Memos that agree with a tree follow an edit of it.
pub fn memos_follow_an_edit()
    ensures { FollowLaw }
{}

/// Runs that have all that is kept beside a tree have all that counts after an edit.
pub fn runs_follow_an_edit()
    ensures { FollowBackedLaw }
{}

/// Where no two entries have one run, no two have one after an edit.
pub fn entries_have_own_runs_after_an_edit()
    ensures { ChangeOwnRunsLaw }
{}

/// An edit adds no entry.
pub fn an_edit_adds_no_entry()
    ensures { ChangeCountLaw }
{}

/// A pass that was done and is sealed leaves no edit under way, and all that the root needs is
/// kept.
pub fn an_accepted_edit_is_sealed()
    ensures { AcceptedLaw }
{}

/// A pass that stopped anywhere, and the edit before it, can be taken back without a trace.
pub fn a_refused_edit_leaves_no_trace()
    ensures { RefusedLaw }
{}

/// What is kept of an element that an edit leaves alone is the same after the edit.
pub fn entries_stay_through_an_edit()
    ensures { EntriesStayLaw }
{}
