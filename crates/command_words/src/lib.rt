//! The words of the command line, as requests.
//!
//! `Request::from_words` reads the words after the program's name: what is done, with which files,
//! and with which numbers. `USAGE` is what the user is told whose words are no command.
//!
//! - Models: words, which are compared byte by byte, and decimal numbers among them; both are own.
//! - Proved: `Request::from_words` gives what `asked_by` gives for the words
//!   (`specs/Command.antt`), and `NoCommand` exactly where that gives nothing.
//! - Knows nothing of: files, sessions, and what is answered.
//! - Change a command: `specs/Command.antt`, then `src/command.rt`, or `src/query.rt` for what is
//!   asked of a page; a number among the words: `specs/Numerals.antt`, then `src/numerals.rt`.
#![tactic(auto)]

mod command; // what is done, and the usage line
mod numerals; // numbers among the words
mod query; // what is asked of a page

pub use command::{Job, NoCommand, Request, Task, USAGE};
