//! The outcome of one element as a list of cells, and back.
//!
//! `put_cells` adds the numbers of an outcome to some cells, each list behind its length, and
//! `read_cells` makes the outcome of them again. `parts_of` reads them without memory: it gives the
//! box and the spaces, and lends the cells of each list; `first_span`, `first_offset` and
//! `first_mark` read these item by item. `read_answer` makes what the element's parent is told.
//! A `Store` keeps outcomes so, in a pool with a checkpoint.
//!
//! - Models: nothing outside; what is kept of layouts lies in cells of one size.
//! - Proved: what is put is the definition (`specs/Cells.antt`), and what is read is the outcome
//!   whose cells these are, exactly; no list of cells stands for two outcomes, and what is read
//!   from the cells of an outcome is that outcome (`laws`). A store is runs of cells with those at
//!   its checkpoint (`specs/Store.antt`), and each call does to them exactly what its contract
//!   says.
//! - Knows nothing of: trees, which outcomes are kept, and how long.
//! - Change what an outcome has: its numbers in `specs/Cells.antt`, then `src/encode.rt`,
//!   `src/parts.rt` and `src/decode.rt`.
#![tactic(auto, using(fixed_units::proofs::Signed::from_bits))]

mod decode; // read_cells, read_answer
mod encode; // put_cells
mod first; // what some cells begin with
mod items; // one item, by its places
pub mod laws; // one outcome, and back
mod parts; // Parts, parts_of
mod store; // Store

pub use decode::{read_answer, read_cells};
pub use encode::put_cells;
pub use first::{first_mark, first_number, first_offset, first_span};
pub use parts::{Parts, parts_of};
pub use store::Store;
