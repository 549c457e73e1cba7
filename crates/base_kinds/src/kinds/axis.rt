//! `axis`: the axis along which an operator stretches.

use crate::kinds::operators::{ByLines, axis_name, op_text};
use case_format::{Case, Fault, Fields, written};
use op_dictionary::{Extra, axis};

/// The kind `axis`.
pub struct OfAxis;

impl ByLines for OfAxis {
    fn keys() -> &'static [&'static str] {
        &["text", "metrics"]
    }

    fn add_answer(
        lines: &Extra,
        _case: Case,
        fields: Fields,
        words: &mut String,
    ) -> Result<(), Fault> {
        let text = op_text(fields.text("text")?);
        written(words.push_str(axis_name(axis(text, lines))))
    }
}
