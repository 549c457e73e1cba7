//! Edits that are drawn from a seed, the tree of 833 elements that they begin with, and what is
//! told of them.
//!
//! - Models: the tree, the edits and their numbers are this project's own; the numbers come from a
//!   linear congruential generator.
//! - Proved: an edit is `drawn_edit` of the state that it is drawn from (`specs/Edits.antt`), the
//!   tree is `start_tree` (`specs/Start.antt`), and a summary is printed as `lines_of`
//!   (`specs/Summary.antt`), exactly.
//! - Knows nothing of: sessions, and what comes of an edit (`generator`).
//! - Change the tree: `specs/Start.antt`, `specs/Document.antt`, then `src/start.rt`. Change the
//!   edits: `specs/Edits.antt`, then `src/edits.rt`. Change how they are told:
//!   `specs/Summary.antt`, then `src/summary.rt`.
#![tactic(auto)]

mod draws; // Draws
mod edits; // one edit
mod start; // the tree
mod summary; // Summary

pub use draws::Draws;
pub use edits::draw_edit;
pub use start::start_tree;
pub use summary::{Summary, count_boxes};
