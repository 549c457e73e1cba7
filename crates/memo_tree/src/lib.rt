//! A tree with its kept layouts.
//!
//! `MemoTree::start` lays a tree out with the metrics of a font, and keeps each layout that is made
//! for it. An edit is carried out by `change`, `relay`, which makes the layouts that aren't kept,
//! and `seal`; where `relay` is refused, `undo_pass` and `undo_change` give back what was there
//! before. `sweep` drops what is needed no more. What stands in the layout of the tree is read off
//! what is kept, without any layout.
//!
//! - Models: this project's own; MathML Core says nothing of it.
//! - Proved: in each state what is kept agrees with the tree and the metrics, and before and after
//!   an edit the layout of the root is among it; each layout has its cells in a run of its own in a
//!   store (`specs/States.antt`, `specs/Trees.antt`); after an edit nothing is kept of new
//!   elements, just those on its path are marked, and each element that stays has the entries that
//!   it had (`specs/Marked.antt`); each step of `relay` after an edit is a layout that the edit
//!   needs, told by ids, none twice (`specs/Counted.antt`); what is taken back is as it was, and
//!   takes no memory (`specs/Reversing.antt`); and what is read is what a fresh layout gives.
//! - Knows nothing of: how an element is laid out, and what is written of it.
//! - Change what an edit does to what is kept: `kept_edits`.
//!   Change what is kept: `kept_results`; what is dropped: `kept_sweep`.
#![tactic(auto)]

mod following; // memos after an edit, and what is noted of it
pub mod laws; // of the definitions
mod notes; // which element stands over which
mod reversal; // Reversal
mod root; // the context of a tree's root
mod start; // the first layout of a tree
mod tree; // MemoTree

pub use reversal::Reversal;
pub use tree::MemoTree;
