//! `tree`: whether a value is a tree. `treefile`: whether a file is one, however long it is.

use case_format::{Case, Fault, written};
use serde_json::Value;
use std::alloc::Global;
use std::fmt::Write;
use tree_json::{TreeRefusal, read_tree};

/// Adds the answer of a case of `tree`.
pub fn answer(case: Case, words: &mut String) -> Result<(), Fault> {
    add_reading(case.alloc, case.value, words)
}

/// Adds the answer of a case of `treefile`.
pub fn answer_file(case: Case, words: &mut String) -> Result<(), Fault> {
    let name = case.value.as_str().ok_or(Fault::WrongValue)?;
    match Value::from_slice(case.alloc, case.files.bytes(name)?) {
        Ok(value) => {
            let answered = add_reading(case.alloc, &value, words);
            drop(value);
            answered
        }
        Err(error) => {
            if error.is_memory() {
                Err(Fault::Memory)
            } else {
                written(words.push_str("json"))
            }
        }
    }
}

/// How a value is read as a tree.
fn add_reading(alloc: Global, value: &Value, words: &mut String) -> Result<(), Fault> {
    match read_tree(alloc, value) {
        Ok(tree) => {
            let next_id = tree.next_id();
            tree.discard();
            written(write!(words, "ok {next_id}"))
        }
        Err(TreeRefusal::Fault(fault)) => {
            let element = fault.element;
            let kind = fault.kind;
            written(write!(words, "fault {element} {kind}"))
        }
        Err(TreeRefusal::Memory) => Err(Fault::Memory),
    }
}
