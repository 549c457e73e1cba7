//! Why the answering of a script ends before its end.
ghost use Rattle.std.specs.Prelude.{◌≡◌};
ghost use Rattle.script_answers.specs.Lines.{status_of_stop, stop_of};

use doc_io::{LineRefusal, WriteFault};
use fixed_units::Memory;
use input_files::Status;

/// Why the lines of a script aren't answered to their end.
#[derive(Clone, Copy, Debug, PartialEq, Eq)]
pub enum Stop {
    /// A read failed.
    ReadFault,
    /// A line or the number of lines passes its limit.
    ScriptLimit,
    /// A write failed.
    WriteFault,
    /// Memory was refused.
    Memory,
}

impl Stop {
    /// Why no line was read.
    pub(crate) fn of_reading(refusal: LineRefusal) -> Stop
        ensures { result ≡ stop_of refusal }
    {
        match refusal {
            LineRefusal::ReadFault => Stop::ReadFault,
            LineRefusal::LineLong | LineRefusal::LinesSpent => Stop::ScriptLimit,
        }
    }

    /// The status with which the run ends.
    pub(crate) fn status(self) -> Status
        ensures { result ≡ status_of_stop self }
    {
        match self {
            Stop::ReadFault => Status::ReadFault,
            Stop::ScriptLimit => Status::ScriptLimit,
            Stop::WriteFault => Status::WriteFault,
            Stop::Memory => Status::Memory,
        }
    }
}

impl From<WriteFault> for Stop {
    ghost use Rattle.std.specs.Prelude.{◌≡◌};
    ghost use Rattle.script_answers.specs.declared.stop.Stop.TheVariants.{WriteFault as NotWritten};

    ghost from_gives = { λ _ stop. stop ≡ NotWritten };

    fn from(_: WriteFault) -> Self {
        Stop::WriteFault
    }
}

impl From<Memory> for Stop {
    ghost use Rattle.std.specs.Prelude.{◌≡◌};
    ghost use Rattle.script_answers.specs.declared.stop.Stop.TheVariants.{Memory as NoMemory};

    ghost from_gives = { λ _ stop. stop ≡ NoMemory };

    fn from(_: Memory) -> Self {
        Stop::Memory
    }
}
