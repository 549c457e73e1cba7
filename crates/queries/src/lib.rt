//! What is answered to what is asked of the page of a tree: a picture, an element, areas.
//!
//! `answer_query` finds an answer on the page of a session's tree, or tells why there is none, and
//! `answer_over` on a page that was made before; `Answer::write` writes it.
//!
//! - Proved: the bytes of an answer are those of `answer_to` (`specs/Queries.antt`), exactly; there
//!   is none exactly for the reason that it gives, or for want of memory.
//! - Knows nothing of: words, files, statuses.
//! - Change what is answered: `specs/Queries.antt`, then `src/answering.rt`; a line:
//!   `specs/Lines.antt`, then `src/lines.rt`.
#![tactic(auto)]

mod answering; // answer_query, answer_over
mod answers; // Answer
mod lines; // the lines of answers

pub use answering::{answer_over, answer_query};
pub use answers::Answer;
