//! Undoing and redoing edits, over any ground that can carry one out.
//!
//! A ring keeps no tree: it keeps the inverses of the edits that were made, and of those that were
//! undone, as far as its depth reaches. Its past and future trees are those that the inverses give
//! when they are applied to the ground's tree, one after another.
//!
//! - Models: this project's own history: a list of past trees, the present one, a list of future
//!   ones.
//! - Proved: an accepted edit puts the present tree into the past, of which so many are kept, and
//!   empties the future; undoing makes the last past tree the present one, with its ids; redoing is
//!   the way back (`specs/Rings.antt`). Each is refused exactly where there is nothing to undo or
//!   redo, or where memory is; after a refusal all is as before. Undoing some edits gives the tree
//!   of before them (`laws`). What a ring asks of its ground stands on the trait
//!   (`specs/Grounds.antt`).
//! - Knows nothing of: how a tree is laid out, scripts and their lines.
//! - Change what an undo gives back: `tree_edits`; how many edits are kept and which:
//!   `src/ring.rt`.
#![tactic(auto)]

mod ground; // Ground, GroundRefusal
pub mod laws; // of histories
mod ring; // Ring, RingRefusal

pub use ground::{Ground, GroundRefusal};
pub use ring::{Ring, RingRefusal};
