//! The kinds of cases for what is laid out in one step: shapes and leaves, rows and tables, and
//! fractions, roots, scripts and limits (docs/CASES.md).
//!
//! `add_answer_of_boxes` carries a case out. The program `cases` asks it, and then another
//! library of kinds if no kind here has the name.
//!
//! - Models: nothing; the kinds are this project's own.
//! - Proved: that every case is carried out to its end, without undefined behaviour, and that each
//!   call is made as its contract asks. What is told is compared, so no function here has an
//!   `ensures` but for the range of what it reads.
//! - Knows nothing of: how anything that it calls is computed, and how cases are read.
//! - Add a kind of case: a file in `src/kinds/`, and its line in `src/kinds.rt`. Add a form of
//!   value: the file of its matter in `src/values/`.
#![tactic(auto)]

mod kinds; // the kinds of cases
mod values; // what several kinds share

pub use kinds::add_answer_of_boxes;
