//! Layouts that are kept, beside the elements of a tree.
//!
//! A `Memo` has the shape of a tree. At each element it keeps the outcomes in the contexts in which
//! that element was laid out, so that a later layout computes only what an edit changed. The
//! outcomes themselves lie in a store beside it: an entry has the id of a run of cells. A pass
//! (`kept_relay`) looks here for what is kept, and keeps here what it computes: it puts outcomes in
//! an epoch of that store, and drops none; whoever began the epoch commits it when the memo is
//! sealed, or rolls it back when the pass is undone.
//!
//! An edit marks the elements on the way to it; what a marked element keeps from before doesn't
//! count. But where layout sees the same of it as then, except for one child, and all its children
//! are asked alike, its questions and what the other children answered are taken over: such an
//! entry is made anew where it stands.
//!
//! What holds of kept layouts beside a tree is one record, `IsMemoOf` of `specs/Kept.antt`, at each
//! element (`Agrees`):
//!
//! - `facts_are`: it is known what the element is among operators.
//! - `as_many`: there is one memo for each child.
//! - `sound`: an entry that is no older one has what its element asks as the tree is now, and what
//!   is answered, and all that it asks is kept (`IsSound`).
//! - `apart`: no two of these entries are in one context.
//! - `stays`: where layout sees the same as before the edit but for one child, a regular older
//!   entry has what the element asks now, and but for that child what is answered now (`StaysBut`).
//!
//! That the run of each entry that is no older one has the cells of the layout of its element, as
//! the tree is now, is said beside the runs of a store (`IsBacked` of `specs/Backed.antt`).
//!
//! - Models: this project's own; MathML Core says nothing of it.
//! - Proved: what is found of an element is kept of it, or nothing is; what is kept, made anew,
//!   undone or sealed leaves all else as it was (`specs/Looking.antt`, `specs/Ends.antt`); a pass
//!   that is done adds the cells of needed layouts, no others (`laws`); an outcome that is kept,
//!   and follows by the equations from others that do, is that of the layout (`laws`).
//! - Knows nothing of: edits (of `tree_edits` it takes which element a path leads to), and by which
//!   equation an element of a kind is laid out.
//! - Change what a kept layout is: `specs/Kept.antt`; what its run has: `specs/Backed.antt`; how
//!   many cells come: `specs/Grown.antt`.
#![tactic(auto)]

mod earlier; // what a pass takes over from before the edit
mod ends; // undo_pass, undo_beside, seal
mod entries; // one element's entries
pub mod laws; // what holds of kept layouts
mod memo; // Memo, Former; Entry, and what a pass did to it: Origin, Before
mod remaking; // an entry that a pass makes anew, and what it was before
mod whole_view; // a view of an element that has all its children in flow

pub use earlier::{Earlier, asked_again, find_earlier, is_regular};
pub use ends::{seal, undo_beside, undo_pass};
pub use entries::{Asked, answer_in, facts_below, is_marked, keep, kept_answer};
pub use memo::{Before, Entry, Former, Memo, Origin};
pub use remaking::{remake, turn};
pub use whole_view::WholeView;
