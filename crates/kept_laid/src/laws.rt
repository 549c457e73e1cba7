//! What holds of kept layouts, whatever the kinds of the elements are.
//!
//! A law is proved where it is a contract, so each function here has one and computes nothing.
ghost use Rattle.kept_laid.specs.Few.{FewLaw, LimitLaw};

/// Where only layouts are kept that one layout of the root needs, there are at most twice as many
/// entries as elements.
pub fn needed_entries_are_few()
    ensures { FewLaw }
{}

/// So a tree of no more elements than any tree has keeps at most 131,072 of them.
pub fn needed_entries_keep_to_the_limit()
    ensures { LimitLaw }
{}
