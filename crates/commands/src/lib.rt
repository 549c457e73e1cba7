//! The commands of the program: what it answers to its words, over any inputs and any sink.
//!
//! `run` is the one call. It takes the words after the program's name, reads the files that they
//! name, writes the answer, and says how the run ended. `layout` writes the lines of a tree's
//! boxes, `edit` answers the lines of a script over a tree, `check` prints both files in their
//! canonical form.
//!
//! - Models: lines, replies and statuses, which are own.
//! - Proved: `run` ends as `Ends` says (`specs/Ends.antt`): with the bytes and the status of
//!   `output` (`specs/Answer.antt`), or cut short for a cause. Of `edit` these bytes are `replies`
//!   (`specs/Replies.antt` of `line_replies`), each over the tree as edited so far.
//! - Knows nothing of: the system; how words, a metrics file, a tree or a line of a script are
//!   read, how a tree is laid out, and what an edit makes of it.
//! - Change what is answered: `specs/Answer.antt`, then the file of `src/` below, then `rt check`;
//!   to a line of a script: the crate `line_replies`; between a line and the next:
//!   `script_answers`; which words ask for it: `command_words`.
#![tactic(auto)]

pub mod laws; // of all scripts
mod load; // the files
mod program; // the top call
mod responders; // what answers the lines of a script: a session, and a ring of edits

pub use input_files::Status;
pub use program::run;
