//! The format of cases: what the lines of a program's standard input say, and what is written of
//! each case that they have (docs/CASES.md).
//!
//! A case costs nothing to prove, so the tables of cases of all crates are data: a program reads
//! them, carries them out by its kinds, and the gate compares what it writes with what must come
//! of them. This crate has the format alone. A program hands its own `Kinds` to `carry_out`.
//!
//! - Models: nothing public; the format is this project's own.
//! - Proved: that every input is gone through to its end, without undefined behaviour, whatever the
//!   kinds do. What is written is compared, so hardly a function here has an `ensures`; two readers
//!   of members say the range of what they read, which kinds need for the calls that they make.
//! - Knows nothing of: any kind.
//! - Add a form of line: `src/lines.rt`, then `src/session.rt`. Add what a file may hold:
//!   `src/contents.rt`. Add a reader of members: `src/fields.rt`.
#![tactic(auto)]

mod answer; // what came of a case, and of writing
mod boxes; // the seven numbers of a box
mod contents; // what a line adds to a file
mod cuts; // a text cut in two
mod fault; // why a line can't be read
mod fields; // the members of a case's value
mod files; // the files that are known
mod kinds; // what a program is asked: a case of a kind
mod lines; // what a line is
mod numbered; // lines from a number up to another, and texts that have a number in them
mod program; // the whole of a program that carries cases out
mod session; // line after line

pub use answer::{Answer, Ended, written};
pub use boxes::{add_box, box_of};
pub use fault::Fault;
pub use fields::{Fields, count_in, text_in};
pub use files::{KnownFiles, is_line_feed};
pub use kinds::{Case, Kinds};
pub use program::carry_out;
