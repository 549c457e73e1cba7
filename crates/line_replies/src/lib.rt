//! A session from the bytes of two files, and what it answers to a line of a script.
//!
//! `open` makes the session of a metrics file and a tree file, or says why there is none (a
//! `Refusal` of `input_files`). `reply_to` does what a line asks for, over the tree as edited so
//! far, and gives the reply; `history::reply_to` does the same over a ring, whose edits can be
//! undone. A `Reply` is written without memory. `Session`, `Undoable` and what definitions above
//! name of sessions (`specs/Sessions.antt`) are handed on.
//!
//! - Models: replies, which are own.
//! - Proved: `open` gives the session of `opened`, or its refusal (`specs/Opening.antt`), but for
//!   want of memory; a reply is `reply_to` of `specs/Replies.antt` or `specs/History.antt`,
//!   exactly, and the session is then `after_line`; where memory is refused, it is as before; which
//!   steps opening and a line take (`specs/Opening.antt`, `specs/EditSteps.antt`,
//!   `specs/HistorySteps.antt`).
//! - Knows nothing of: the words of the command line, and how files and scripts are read.
//! - Change what is answered to a line: `specs/Replies.antt`, then the file of `src/` below; what
//!   is told of a file that gives no session: `input_files`.
#![tactic(auto)]

pub mod history; // replies to lines whose edits can be undone
mod opening; // a session of two files' bytes
mod reply; // to one line
mod script; // white space

pub use edit_session::{Session, Undoable};
pub use opening::{open, open_tree, start};
pub use reply::{Cause, Reply, reply_to};
