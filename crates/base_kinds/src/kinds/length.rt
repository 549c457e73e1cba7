//! `length`: which length a text is.

use case_format::{Case, Fault, written};
use css_lengths::{LengthText, Unit, read_length};
use std::alloc::AllocError;
use std::fmt::Write;

/// Adds the answer of a case of `length`.
pub fn answer(case: Case, words: &mut String) -> Result<(), Fault> {
    let text = case.value.as_str().ok_or(Fault::WrongValue)?;
    written(match read_length(text) {
        Some(length) => add_length(length, words),
        None => words.push_str("none"),
    })
}

/// The millionths and the unit.
fn add_length(length: LengthText, words: &mut String) -> Result<(), AllocError> {
    let number = length.millionths;
    let unit = word_of(length.unit);
    write!(words, "{number} {unit}")
}

fn word_of(unit: Unit) -> &'static str {
    match unit {
        Unit::Em => "em",
        Unit::Ex => "ex",
        Unit::Px => "px",
        Unit::Pt => "pt",
        Unit::Pc => "pc",
        Unit::Inch => "in",
        Unit::Cm => "cm",
        Unit::Mm => "mm",
        Unit::Quarter => "q",
        Unit::Percent => "%",
    }
}
