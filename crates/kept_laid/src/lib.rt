//! What is read off kept layouts: the layout of a tree, the children that an element asked, the box
//! of an element, and how many entries there are.
//!
//! Nothing is laid out here, and no step is taken: all that these calls give stands in entries and
//! in the runs that these have in a store.
//!
//! - Models: this project's own; MathML Core says nothing of it.
//! - Proved: what is read is what a fresh layout gives, with any metrics with which the memo
//!   agrees and the runs have its layouts; where only what is needed is kept, there are at most
//!   twice as many entries as elements (`laws`).
//! - Knows nothing of: how entries are made, and when they are dropped.
//! - Change what a kept layout is: `kept_results`.
#![tactic(auto)]

mod amount; // how many entries there are
mod boxes; // the box of an element by its id
mod ids; // which elements have an id
mod last; // the last question to each child
pub mod laws; // what holds of all kept layouts
mod laid; // a tree of kept layouts
mod lookup; // one entry of an element

pub use amount::count_or_most;
pub use boxes::box_of;
pub use laid::{KeptLayout, kept_kids, laid_of};
pub use lookup::{is_live, kept_entry, root_box};
