//! `resolve`: how many units a length text is, where an em, an ex and what percentages are of are
//! so many.

use case_format::{Case, Fault, Fields, written};
use css_lengths::{read_length, resolve};
use std::fmt::Write;

/// Adds the answer of a case of `resolve`.
pub fn answer(case: Case, words: &mut String) -> Result<(), Fault> {
    let fields = Fields::of_value(case.value, &["length", "em", "ex", "percent_of"])?;
    let em = fields.within("em", 0, 1_048_576)?;
    let ex = fields.within("ex", 0, 4_294_967_296)?;
    let percent_of = fields.within("percent_of", -17_179_869_184, 17_179_869_184)?;
    written(match read_length(fields.text("length")?) {
        Some(length) => {
            let units = resolve(length, em, ex, percent_of);
            write!(words, "{units}")
        }
        None => words.push_str("none"),
    })
}
