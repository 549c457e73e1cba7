ghost use Rattle.std.specs.Prelude.{◌≡◌};
ghost use Rattle.std.specs.Process.{exit_status};
ghost use Rattle.input_files.specs.Status.{number_of};

use std::process::ExitCode;

/// How a run ends.
#[derive(Clone, Copy, Debug, PartialEq, Eq)]
pub enum Status {
    /// The work was done to the end of the input.
    Done,
    /// The words are no command.
    Usage,
    /// The metrics file passes its limit or isn't metrics.
    Metrics,
    /// The tree file passes its limit, has no reading as JSON or isn't a tree.
    Tree,
    /// A read failed, or a file isn't there.
    ReadFault,
    /// A write failed.
    WriteFault,
    /// Memory was refused.
    Memory,
    /// A number of the tree's layout can't be stored.
    Range,
    /// A line of the script or the number of its lines passes its limit.
    ScriptLimit,
    /// No element in flow has an id that is named among the words.
    Node,
    /// More would be painted than may be.
    Paint,
}

impl Status {
    /// The number of the exit status.
    pub fn number(self) -> u8
        ensures { result ≡ number_of self }
    {
        match self {
            Status::Done => 0,
            Status::Usage => 2,
            Status::Metrics => 3,
            Status::Tree => 4,
            Status::ReadFault => 5,
            Status::WriteFault => 6,
            Status::Memory => 7,
            Status::Range => 8,
            Status::ScriptLimit => 9,
            Status::Node => 10,
            Status::Paint => 11,
        }
    }

    /// The exit status as the program ends with it.
    pub fn exit_code(self) -> ExitCode
        ensures { exit_status result ≡ number_of self }
    {
        ExitCode::from(self.number())
    }
}
