//! What is found in a pool after a call.
//!
//! A law is proved where it is a contract, so each function here has one and computes nothing.
ghost use Rattle.box_pool.specs.Laws.{PutLaw, SweepLaw, SweptCountLaw};

/// A put run is found under its new id, and each other one as before.
pub fn a_put_adds_one_run()
    ensures { PutLaw }
{}

/// After a sweep a listed run is found as before, and no other one.
pub fn a_sweep_keeps_what_is_listed()
    ensures { SweepLaw }
{}

/// As many runs are live after a sweep as were listed.
pub fn a_sweep_counts_what_is_listed()
    ensures { SweptCountLaw }
{}
