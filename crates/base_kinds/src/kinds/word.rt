//! `word`: whether a text is a word, in any case of ASCII letters.

use crate::kinds::elements::yes_or_no;
use case_format::{Case, Fault, Fields, written};
use fixed_units::is_word;

/// Adds the answer of a case of `word`.
pub fn answer(case: Case, words: &mut String) -> Result<(), Fault> {
    let fields = Fields::of_value(case.value, &["text", "word"])?;
    let is_word = is_word(fields.text("text")?, fields.text("word")?);
    written(words.push_str(yes_or_no(is_word)))
}
