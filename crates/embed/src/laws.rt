//! What holds of all files.
//!
//! A law is proved where it is a contract, so each function here has one and computes nothing.
ghost use Rattle.embed.specs.Laws.{StartedLaw};

/// A session is started with metrics just as it is opened over the bytes of which they were read.
pub fn a_started_session_is_the_opened_one()
    ensures { StartedLaw }
{}
