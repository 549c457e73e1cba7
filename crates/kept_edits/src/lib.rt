//! What an edit does to the layouts that are kept beside a tree.
//!
//! An edit changes one element at the end of a way. The memos on that way are marked, so that no
//! layout that they keep counts, and get the facts of their elements as these are then; a memo is
//! put in, taken out or put in the place of another where a child is. `way_along` finds the way of
//! an edit, and `follow_way` has the memos follow the tree.
//!
//! - Models: this project's own; MathML Core says nothing of it.
//! - Proved: after the same change of both, memos agree with the tree again, and taking the change
//!   back gives the memos that were there before; each step of a pass after an edit is a layout
//!   that the edit needs, told by ids, none twice; runs that have what is kept have it after an
//!   edit too, no two entries come to have one run, and an edit adds no entry (`laws`).
//! - Knows nothing of: how an edit is carried out on the tree, and how an element is laid out.
//! - Change what an edit does to memos: `specs/Changed.antt`, then `src/change.rt`; where an edit
//!   changes a tree: `specs/Ways.antt`, then `src/way.rt`.
#![tactic(auto)]

mod blanks; // memos of elements that were never laid out
mod change; // Renewal, change_memo, undo_memo
mod following; // follow_way
mod known; // known_on
pub mod laws; // of the definitions
mod way; // Way, way_along

pub use blanks::blank;
pub use change::{Renewal, change_memo, undo_memo};
pub use following::follow_way;
pub use known::known_on;
pub use way::{Way, way_along};
