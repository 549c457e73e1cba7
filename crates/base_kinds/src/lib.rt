//! The kinds of cases for what stands below layout: lengths, numbers and words, the operator
//! dictionary and the properties of operators, elements and trees, metrics files, glyphs and styles
//! (docs/CASES.md).
//!
//! `add_answer_of_base` carries a case out. The program `cases` asks it, and then another
//! library of kinds if no kind here has the name.
//!
//! - Models: nothing; the kinds are this project's own.
//! - Proved: that every case is carried out to its end, without undefined behaviour, and that each
//!   call is made as its contract asks. What is told is compared, so no function here has an
//!   `ensures` but for the styles that are made.
//! - Knows nothing of: how anything that it calls is computed, and how cases are read.
//! - Add a kind of case: a file in `src/kinds/`, and its line in `src/kinds.rt`.
#![tactic(auto)]

mod kinds; // the kinds of cases

pub use kinds::add_answer_of_base;
