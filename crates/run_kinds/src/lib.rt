//! The kinds of cases for whole runs: the words, the inputs and the sink in memory that a case
//! gives, and what is told of how its runs ended (docs/CASES.md).
//!
//! A program whose runs are cases implements `Program`, and hands `OfRuns` to
//! `case_format::carry_out`. So nothing here waits for the proof of that program.
//!
//! - Models: nothing; the kinds are this project's own.
//! - Proved: that every case is carried out to its end, without undefined behaviour, whatever the
//!   program does. What is told is compared, so no function here has an `ensures`.
//! - Knows nothing of: what the words mean, and how a run is written.
//! - Add to what a run may be: `src/runs.rt`. Add a command over the values of a case:
//!   `src/of_values.rt`. Add a kind of case: a file in `src/`, and its line in `src/kinds.rt`.
#![tactic(auto)]

mod ends; // how a run ends
mod failing; // runs in which each call fails in turn
mod given; // what a case gives of its words, its inputs and its sink
mod kinds; // the kinds by their names
mod of_values; // a command over values of a case
mod runs; // a run over files in memory

pub use ends::Program;
pub use kinds::OfRuns;
