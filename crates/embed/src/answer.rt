ghost use Rattle.std.specs.Prelude.{◌≡◌};
ghost use Rattle.embed.specs.Status.{number_of};

use input_files::{Refusal, Status};

/// What a call answers.
#[derive(Clone, Copy, Debug, PartialEq, Eq)]
pub enum Answer {
    /// What was asked for is done.
    Done,
    /// The files give no session or no metrics, or the page has no answer.
    Refused(Refusal),
    /// The line has more bytes than the longest.
    LineLong,
    /// Memory was refused.
    Memory,
    /// The handle keeps a session or metrics already.
    Open,
    /// The handle keeps no session, or no metrics.
    Closed,
    /// The buffer is too short.
    Short,
    /// No box holds the point, or there is nothing to undo or redo.
    Nothing,
}

impl Answer {
    /// The number that C is told.
    pub fn number(self) -> u32
        ensures { result ≡ number_of self }
    {
        match self {
            Answer::Done => u32::from(Status::Done.number()),
            Answer::Refused(refusal) => u32::from(refusal.status().number()),
            Answer::LineLong => u32::from(Status::ScriptLimit.number()),
            Answer::Memory => u32::from(Status::Memory.number()),
            Answer::Open => 32,
            Answer::Closed => 33,
            Answer::Short => 34,
            Answer::Nothing => 35,
        }
    }
}
