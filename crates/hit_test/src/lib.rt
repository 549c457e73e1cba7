//! What a pointer hits on a page, and what is marked between two elements.
//!
//! `hit` answers which element a point lies in: of those that hold it the one that stands deepest,
//! and of several such the last. `selection` gives the areas to mark where an editor's user drags
//! from one element to another.
//!
//! - Models: hit testing and selection of an editor, which are own.
//! - Proved: `hit` gives `hit_of` (`specs/Hits.antt`), exactly, and takes no memory; `selection`
//!   gives `selected_areas` (`specs/Selecting.antt`), exactly, or tells the first id that no
//!   element in flow has.
//! - Knows nothing of: fonts, marks, how a tree is laid out.
//! - Change what is hit: `specs/Hits.antt`, then `src/hits.rt`. Change what is marked:
//!   `specs/Selecting.antt`, then `src/chosen.rt`.
#![tactic(auto)]

mod areas; // Area, the areas of elements
mod chosen; // the elements to mark
mod hits; // hit
mod look; // the lowest element over two
mod select; // selection

pub use areas::Area;
pub use hits::hit;
pub use select::{SelectRefusal, selection};
