//! Metrics files: the bytes of a metrics file, read and printed.
//!
//! `read_metrics` reads a file's bytes, and answers the first fault where the file has one;
//! `print_metrics` gives a file that says the same, in one form and one order.
//!
//! - Models: the metrics file of docs/FORMATS.md.
//! - Proved: `read_metrics` answers `metrics_of` (`specs/Reading.antt`), exactly, or that memory
//!   was refused; `print_metrics` is `print_of` (`specs/Print.antt`), and reading it gives the same
//!   metrics (`laws`). Both alone take memory.
//! - Knows nothing of: trees, styles, layout.
//! - Laws (`specs/Laws.antt`): metrics are what the lines say, each behind those before it; the
//!   first fault is told; whatever is given is in its range.
//! - Change a line of the format: `specs/Fields.antt`, `specs/Reading.antt` and `specs/Print.antt`,
//!   then `src/lines.rt`, `src/said.rt`, `src/taking.rt` and the mirror `src/print.rt`.
#![tactic(auto)]

mod choices; // words of a small choice: FIX, prefix, block, A
mod constant_texts; // the names of the constants
mod kern_lines; // lines of kerns
mod keyword; // the first word of a line
pub mod laws; // of all files: what their lines say, their first fault, their print
mod lines; // the fields of each kind of line
mod named_glyphs; // NamedGlyphs: glyphs by name, while a file is read
mod named_lines; // those that name a glyph
mod pieces; // lines of a file, words of a line
mod print; // print_metrics
mod printed; // PrintedLines: what is printed, by words
mod read; // read_metrics
mod reader; // line after line
mod refusal; // MetricsFault, MetricsRefusal
mod said; // Said: what a line says
mod steps; // a step behind a step, or the first fault
mod table_entries; // entries that are taken into the tables by glyph
mod table_words; // the first words of the tables by glyph
mod taking; // what may be said, and is kept
mod texts; // the texts of a choice
mod words; // numbers, codes and names

pub use print::print_metrics;
pub use read::{MOST_FILE_BYTES, read_metrics};
pub use refusal::{MetricsFault, MetricsRefusal};
