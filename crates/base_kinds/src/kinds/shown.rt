//! `shown`: the text that an element with a text shows.

use crate::kinds::elements::add_code;
use case_format::{Case, Fault, written};
use embellished::shown_text;
use std::alloc::AllocError;

/// Adds the answer of a case of `shown`.
pub fn answer(case: Case, words: &mut String) -> Result<(), Fault> {
    let text = case.value.as_str().ok_or(Fault::WrongValue)?;
    let shown = shown_text(case.alloc, text)?;
    let answered = written(add_codes(shown.as_str(), words));
    drop(shown);
    answered
}

/// The codes of the characters, joined by `+`, or a word for none.
fn add_codes(text: &str, words: &mut String) -> Result<(), AllocError> {
    if text.is_empty() {
        return words.push_str("empty");
    }
    for letter in text.chars() {
        if !words.is_empty() {
            words.push('+')?;
        }
        add_code(letter, words)?;
    }
    Ok(())
}
