//! What holds of swept layouts.
//!
//! A law is proved where it is a contract, so each function here has one and computes nothing.
ghost use Rattle.kept_sweep.specs.Laws.{PartBackedLaw, PartOwnRunsLaw};
ghost use Rattle.kept_sweep.specs.RunLaws.{EnoughRunsLaw, OneRunEachLaw};
ghost use Rattle.kept_sweep.specs.Swept.{KeptVisitsLaw};

/// A tree that was swept keeps the layouts that are listed for that of its root, and no others.
pub fn what_is_kept_is_what_is_listed()
    ensures { KeptVisitsLaw }
{}

/// A part of what is kept has the runs that it had, and no two entries of it have one.
pub fn a_part_keeps_its_runs()
    ensures backed { PartBackedLaw }
    ensures own { PartOwnRunsLaw }
{}

/// Where each entry has a run of its own, there are at least as many runs as entries; and where
/// there are no more, there is one for each entry, and no other.
pub fn a_store_has_one_run_each()
    ensures enough { EnoughRunsLaw }
    ensures one { OneRunEachLaw }
{}
