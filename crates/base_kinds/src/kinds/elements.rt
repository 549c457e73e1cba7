//! What the kinds on elements share: an element of a value, and the words that stand for letters,
//! forms and truth values.

use case_format::Fault;
use math_tree::Node;
use op_dictionary::Form;
use serde_json::Value;
use std::alloc::{AllocError, Global};
use std::fmt::Write;
use tree_json::{TreeRefusal, read_part};

/// The element that a value is.
pub fn element_of(alloc: Global, value: &Value) -> Result<Node, Fault> {
    match read_part(alloc, value) {
        Ok(element) => Ok(element),
        Err(TreeRefusal::Fault(_)) => Err(Fault::NotAnElement),
        Err(TreeRefusal::Memory) => Err(Fault::Memory),
    }
}

/// Adds a character's code.
pub fn add_code(letter: char, words: &mut String) -> Result<(), AllocError> {
    let code = u32::from(letter);
    write!(words, "{code:04X}")
}

/// The letter of a form.
pub fn form_letter(form: Form) -> char {
    match form {
        Form::Prefix => 'p',
        Form::Infix => 'i',
        Form::Postfix => 'o',
    }
}

/// The letter of a truth value.
pub fn truth_letter(truth: bool) -> char {
    if truth { 't' } else { 'f' }
}

/// The word of a truth value.
pub fn yes_or_no(truth: bool) -> &'static str {
    if truth { "yes" } else { "no" }
}
