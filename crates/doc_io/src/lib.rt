//! What the program reads from and writes to: named files, a sink, and whole files and pieces; and
//! the words of its command line.
//!
//! `Inputs` and `Sink` are the only ways to files and streams, and everything above is generic in
//! them: one proof serves `FileInputs` and `StdSink`, which are the system's, and `MemoryInputs`
//! and `MemorySink`, with which a test lets any call fail. The words of the command line come by
//! `command_line` alone, which promises nothing.
//!
//! - Models: `std::io::Read` and `Write`, with counts of failures in place of the error's value.
//! - Proved: `read_all` gives the whole file and `write_all` appends the whole piece, or a count
//!   rose; `read_all` knows a file past its limit before it takes memory for the last bytes
//!   (`specs/Whole.antt`); each call in memory is exact (`specs/MemoryInputs.antt`,
//!   `specs/MemorySink.antt`).
//! - Knows nothing of: formats, lines, fonts, trees.
//! - Change what every input or sink promises: `specs/Causes.antt`, then `src/traits.rt`, then
//!   `rt check`.
#![tactic(auto)]

mod arguments; // the words of the command line
mod edge; // the system's files and standard output
mod held; // bytes that were read and not given yet
pub mod laws; // of all runs
mod line_reader; // the lines of a file, one after another
mod memory_inputs; // files in memory
mod memory_sink; // a sink in memory
mod piece; // what is held back of a text
mod short_text; // a part of a line
mod traits; // Inputs, Sink
mod whole; // read_all, write_all

pub use arguments::command_line;
pub use edge::{FileInputs, StdSink};
pub use line_reader::{Line, LineReader, LineRefusal};
pub use memory_inputs::MemoryInputs;
pub use memory_sink::MemorySink;
pub use piece::Piece;
pub use short_text::{SHORT_TEXT, ShortText};
pub use traits::{Failed, Inputs, Sink};
pub use whole::{ReadRefusal, WriteFault, read_all, write_all};
