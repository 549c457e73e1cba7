//! Tables: the box of a cell, the widths of columns, and where cells and rows stand.
//!
//! `cell` adds the padding of a cell, `columns` gives each column the width of its widest cell,
//! `row_of_cells` sets the cells of a row in the middle of their columns, `row_of_slots` in the
//! middle of slots that are given, and `table_finish` sets the rows one under the other, round the
//! axis.
//!
//! - Models: MathML Core 3.5, "Tabular Math", and the padding that its style sheet gives `mtd`;
//!   what Core leaves to CSS is this project's own.
//! - Proved: each call is its definition (`specs/Cells.antt`, `specs/Columns.antt`,
//!   `specs/Placing.antt`), exactly; what stands in the middle, and beside or under what, are
//!   `laws`.
//! - Knows nothing of: trees, styles, other elements. The widths of columns and the heights of rows
//!   are found apart from where things stand.
//! - Change how a table is placed: `specs/Placing.antt`, then `src/placing.rt`.
#![tactic(auto, using(fixed_units::proofs::Signed::from_bits))]

mod cells; // cell
mod widths; // columns
pub mod laws; // the middle, side by side, one under the other
mod placing; // row_of_cells, row_of_slots, table_finish
mod totals; // sums over lists

pub use cells::{cell, cell_start};
pub use placing::{row_of_cells, row_of_slots, table_finish};
pub use totals::total_width;
pub use widths::columns;
