//! Where the boxes and the marks of a tree stand that is laid out.
//!
//! Each element has its place from its parent's: the sum of the parent's place and its own offset
//! there. `place` gives the boxes and marks of all elements at their places, in document order, and
//! `place_kept` the same of a tree whose layout is kept, without a copy of either.
//!
//! - Models: the geometry of MathML Core, where a child's box has an offset in that of its parent;
//!   an `mphantom` (MathML Core 3.3.7) shows nothing.
//! - Proved: what is placed is `placed` (`specs/Placing.antt`), exactly.
//! - Knows nothing of: how a tree is laid out, and what is written of it.
//! - Change where something stands: `specs/Placing.antt`, then `src/placing.rt` and `src/kept.rt`.
#![tactic(auto)]

mod kept; // place_kept
pub mod laws; // what holds of all that is placed
mod placing; // place

pub use kept::place_kept;
pub use placing::place;
