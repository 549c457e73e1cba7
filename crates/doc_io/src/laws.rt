//! What holds of all runs.
//!
//! A law is proved where it is a contract, so each function here has one and computes nothing.
ghost use Rattle.doc_io.specs.LineRuns.{FrontLaw, RunLaw};

/// The lines that a reader gives one after another are those of the file, however the reads cut it.
pub fn a_run_gives_the_lines_of_the_file()
    ensures { RunLaw }
{}

/// The lines that a reader has given so far are the first ones of the file, also where it gives no
/// more of them, since a read failed or a limit was passed.
pub fn lines_given_so_far_are_the_first()
    ensures { FrontLaw }
{}
