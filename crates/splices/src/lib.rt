//! One splice of a list: an item is put in, taken out or exchanged for another, or the list stays.
//! `apply_to` carries a splice out and gives back what was taken, and `Site::inverse` makes of that
//! the splice that takes it back. All memory is taken before, as a `Room`.
//!
//! - Models: nothing outside; lists of children and of what is kept beside them change so.
//! - Proved: a list becomes exactly `spliced`, and what is answered is exactly `taken`
//!   (`specs/Splicing.antt`); the inverse leads back to the list before, and fits; an item that
//!   stays stands where `Moves` says, and what stands in the spliced list was brought or stays; a
//!   list grows or shrinks by one item at most (`laws`).
//! - Knows nothing of: trees, edits, layouts.
//! - Change what a splice does: `specs/Splicing.antt`, then `src/splice.rt`, then `rt check`.
#![tactic(auto)]

pub mod laws;
mod site;
mod splice;

pub use site::Site;
pub use splice::Splice;
