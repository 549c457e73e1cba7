//! The kept layouts of a tree, swept: afterwards they are exactly those that the layout of its root
//! needs.
//!
//! Edits leave layouts behind that nobody needs any more. `sweep_stored` drops them: it marks every
//! element, flags what the root's layout needs, and seals. Then it drops all runs of the store but
//! those of the entries that are left. It takes its memory first, so that all is as before where
//! that is refused.
//!
//! - Models: this project's own; MathML Core says nothing of it.
//! - Proved: what a sweep keeps is what the root's layout needs, each entry as it was
//!   (`specs/Swept.antt`); the store then has one run for each entry, with the cells that it had,
//!   and no other run (`specs/Runs.antt`).
//! - Knows nothing of: edits, and by which equation an element of a kind is laid out.
//! - Change how what is needed is found: `src/flags.rt`.
#![tactic(auto)]

mod flags; // marks, and flags of what is needed
pub mod laws; // what holds of swept layouts
mod places; // where children in flow stand
mod runs; // the runs of all entries
mod sweep;

pub use sweep::sweep_stored;
