//! Boxes and marks where they stand on the page, and the lines that tell of them.
//!
//! A `Placed` is made empty, and `add_box` and `add_mark` add one item each. `write_placed` writes
//! a line for each item.
//!
//! - Models: the output lines of docs/FORMATS.md.
//! - Proved: what is added is exactly that item; `write_placed` appends `text_of`
//!   (`specs/Lines.antt`), exactly, or a front of it where a write failed, and takes no memory.
//! - Knows nothing of: how a tree is laid out, and where its boxes stand.
//! - Change a line: its definition in `specs/Lines.antt`, then its function in `src/lines.rt`.
#![tactic(auto)]

mod lines; // the line of each kind of item
mod placed; // Placed
mod write; // write_placed

pub use placed::{Placed, PlacedBox, PlacedItem};
pub use write::write_placed;
