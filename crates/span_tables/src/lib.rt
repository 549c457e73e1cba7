//! Tables whose cells span columns and rows: where cells stand, how wide columns and how high rows
//! are, and which part of its row a cell may fill.
//!
//! `span_of` reads an attribute, `first_columns` finds where each cell begins, `span_columns` the
//! widths of columns, `row_height` and `span_heights` the heights of rows; `slots_of_row` says
//! where in its row each cell has its place. No cell spans more than 64 columns or 1000 rows, and a
//! table has at most 65,536 cells, so it has at most 2^22 columns.
//!
//! - Models: MathML Core 3.5.3, "Entry in Table or Matrix", which gives a cell the spans of HTML;
//!   where cells stand, how what a cell lacks is shared, and the limits are this project's own.
//! - Proved: each call is its definition, exactly (`specs/Spans.antt`, `specs/Standing.antt`,
//!   `specs/Widths.antt`, `specs/Heights.antt`, `specs/Slots.antt`). No cell begins under one of an
//!   earlier row, none is wider than its columns and its slot, one over several rows is no deeper
//!   than these, and without spanning cells a table is a plain one (`laws`).
//! - Knows nothing of: elements, styles, where a table stands, what is in a cell.
//! - Change how a lack is shared: `specs/Widths.antt`, then `src/sharing.rt`. Where cells stand:
//!   `specs/Standing.antt`, then `src/firsts.rt`.
#![tactic(auto, using(fixed_units::proofs::Signed::from_bits))]

mod cells; // CellSpan, SpanCell, RowHeight, and how much a cell may span
mod firsts; // first_columns
mod heights; // span_heights
pub mod laws; // free columns, cells that fit, plain tables
mod largest; // the larger of two numbers
mod own_heights; // row_height
mod sharing; // the lack of one cell, shared by its columns
mod slots; // slots_of_row
mod spans; // span_of
mod standing; // a table's cells in document order
mod widths; // span_columns

pub use cells::{CellSpan, MOST_COLUMNS, MOST_ROWS, RowHeight, SpanCell};
pub use firsts::first_columns;
pub use heights::span_heights;
pub use own_heights::row_height;
pub use slots::{column_starts, slots_from, slots_of_row};
pub use spans::span_of;
pub use widths::span_columns;
