//! `half`: half of a number, rounded down.

use case_format::{Case, Fault, written};
use fixed_units::half;
use std::fmt::Write;

/// Adds the answer of a case of `half`.
pub fn answer(case: Case, words: &mut String) -> Result<(), Fault> {
    let number = case.value.as_i64().ok_or(Fault::WrongValue)?;
    let half = half(number);
    written(write!(words, "{half}"))
}
