//! The kinds of cases for layouts that are kept: sessions go through scripts, and it is told how
//! many layouts were made each time, how many are kept in how many cells, and whether what a
//! session holds is what an equal tree beside it does, a fresh layout gives, and a copy holds; and
//! the same of single passes (docs/CASES.md).
//!
//! `add_answer_of_steps` carries a case out. The program `cases` asks it.
//!
//! - Models: nothing; the kinds are this project's own.
//! - Proved: that every case is carried out to its end, without undefined behaviour, and that a
//!   tree with its kept layouts is sealed again behind a line, unless memory was refused. What is
//!   told is compared, so no function here says what it tells.
//! - Knows nothing of: what is kept, what an edit leaves of it, and how cases are read.
//! - Add a kind of case: its file in `src/kinds/`, and its line in `src/kinds.rt`. Add what is
//!   compared: `src/same.rt`.
#![tactic(auto)]

mod counted; // lines of a script by the calls of `memo_tree`, with how many layouts were made
mod edits; // edits of a tree alone, and their way back
mod given; // what a case gives
mod kinds; // the kinds of cases
mod same; // whether two trees with their kept layouts are the same
mod session; // lines of a script, in a session
mod words; // the words of answers

pub use kinds::add_answer_of_steps;
