ghost use Rattle.std.specs.Prelude.{◌<◌, length};
ghost use Rattle.doc_io.specs.Causes.{InputsTold, Reads, Selects, SinkTold, Writes};

use thiserror::Error;

/// The call failed. Why is told by the counts of what was called.
#[derive(Clone, Copy, Debug, PartialEq, Eq, Error)]
#[error("the call failed")]
pub struct Failed;

/// Named files, of which one at a time is selected and read from its front.
///
/// An implementation tells the files, or it tells nothing of content. It counts its failures: after
/// a `Failed` a count rose. A count never falls; it stops at 2^64 - 1, and there it passes for
/// risen.
pub trait Inputs {
    /// The files by name, what is left of the selected one, and the counts. No call changes the
    /// files, and with no file selected nothing is left.
    ghost told: { Self → InputsTold };

    /// Selects the file of a name, from its front. After `Failed` no file is selected.
    fn select(&mut self, name: &str) -> Result<(), Failed>
        ensures { Selects (told self.old) (told self.new) name.now result };

    /// Moves some bytes of the selected file to the front of `into`, and says how many: at least
    /// one, or 0 at the end of the file. `Failed` moves none.
    fn read(&mut self, into: &mut [u8]) -> Result<usize, Failed>
        requires { 0 < length into.old }
        ensures { Reads (told self.old) (told self.new) into.new result };
}

/// What takes the bytes that the program writes. Its count of failures never falls.
pub trait Sink {
    /// The bytes written so far, and how often a call failed.
    ghost told: { Self → SinkTold };

    /// Appends some bytes from the front of a piece, and says how many: at least one. `Failed`
    /// appends none, and is the answer also where no byte could be taken.
    fn write(&mut self, from: &[u8]) -> Result<usize, Failed>
        requires { 0 < length from.now }
        ensures { Writes (told self.old) (told self.new) from.now result };
}
