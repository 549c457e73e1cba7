//! `facts`: what an element is among operators, and the forms of its children. `factsfile`: the
//! same of an element that a file holds.

use crate::kinds::elements::{add_code, element_of, form_letter, truth_letter};
use case_format::{Case, Fault, written};
use embellished::{Core, Facts, NodeView, View, fences_of, form_within, known_of};
use fixed_units::Memory;
use math_tree::{Kind, Node};
use op_dictionary::{Form, OpText};
use serde_json::Value;
use std::alloc::{AllocError, Global};
use std::fmt::Write;

/// The most children that a view shows.
const MOST_CHILDREN: usize = 65_535;

/// Adds the answer of a case of `facts`.
pub fn answer(case: Case, words: &mut String) -> Result<(), Fault> {
    add_answer(case.alloc, case.value, words)
}

/// Adds the answer of a case of `factsfile`.
pub fn answer_file(case: Case, words: &mut String) -> Result<(), Fault> {
    let name = case.value.as_str().ok_or(Fault::WrongValue)?;
    match Value::from_slice(case.alloc, case.files.bytes(name)?) {
        Ok(value) => {
            let answered = add_answer(case.alloc, &value, words);
            drop(value);
            answered
        }
        Err(error) => Err(if error.is_memory() {
            Fault::Memory
        } else {
            Fault::NotAnElement
        }),
    }
}

fn add_answer(alloc: Global, value: &Value, words: &mut String) -> Result<(), Fault> {
    let element = element_of(alloc, value)?;
    let answered = add_element(alloc, &element, words);
    element.discard();
    answered
}

fn add_element(alloc: Global, element: &Node, words: &mut String) -> Result<(), Fault> {
    if MOST_CHILDREN < element.children.len() {
        return Err(Fault::NotAnElement);
    }
    let known = known_of(alloc, element)?;
    let view = NodeView::make(alloc, element, known.facts, &known.kids);
    let answered = add_view(view, words);
    drop(known);
    answered
}

/// Adds what a view shows, where there was memory for it.
fn add_view(view: Result<NodeView, Memory>, words: &mut String) -> Result<(), Fault> {
    let view = view?;
    written(add_words(&view, words))
}

/// The kind, whether it is space-like, its core, its children's forms, and how many of them stand
/// before prescripts.
fn add_words<V: View>(view: &V, words: &mut String) -> Result<(), AllocError> {
    add_facts(view.facts(), words)?;
    words.push(' ')?;
    add_forms(view, words)?;
    let prescripts = view.prescripts();
    write!(words, " {prescripts}")
}

fn add_facts(facts: Facts, words: &mut String) -> Result<(), AllocError> {
    words.push_str(kind_name(facts.laid))?;
    words.push_str(if facts.space_like { " space" } else { " ink" })?;
    match facts.core {
        None => words.push_str(" none"),
        Some(core) => add_core(core, words),
    }
}

/// The text of a core, and what its attributes say.
fn add_core(core: Core, words: &mut String) -> Result<(), AllocError> {
    words.push(' ')?;
    add_text(core.text, words)?;
    words.push(' ')?;
    words.push(core.form.map_or('-', form_letter))?;
    for said in [
        core.stretchy,
        core.symmetric,
        core.largeop,
        core.movablelimits,
    ] {
        words.push(said.map_or('-', truth_letter))?;
    }
    Ok(())
}

/// The code of each character of an operator's text, or a word.
fn add_text(text: OpText, words: &mut String) -> Result<(), AllocError> {
    match text {
        OpText::Empty => words.push_str("empty"),
        OpText::One(letter) => add_code(letter, words),
        OpText::Two(first, second) => {
            add_code(first, words)?;
            words.push('+')?;
            add_code(second, words)
        }
        OpText::Other => words.push_str("other"),
    }
}

/// A letter for the form of each child in flow, in an element whose own form is prefix.
fn add_forms<V: View>(view: &V, words: &mut String) -> Result<(), AllocError> {
    if view.kids() == 0 {
        words.push('-')?;
    }
    let fences = fences_of(view);
    for index in 0..view.kids() {
        words.push(form_letter(form_within(view, fences, index, Form::Prefix)))?;
    }
    Ok(())
}

fn kind_name(kind: Kind) -> &'static str {
    match kind {
        Kind::Annotation => "Annotation",
        Kind::AnnotationXml => "AnnotationXml",
        Kind::Maction => "Maction",
        Kind::Math => "Math",
        Kind::Merror => "Merror",
        Kind::Mfrac => "Mfrac",
        Kind::Mi => "Mi",
        Kind::Mmultiscripts => "Mmultiscripts",
        Kind::Mn => "Mn",
        Kind::Mo => "Mo",
        Kind::Mover => "Mover",
        Kind::Mpadded => "Mpadded",
        Kind::Mphantom => "Mphantom",
        Kind::Mprescripts => "Mprescripts",
        Kind::Mroot => "Mroot",
        Kind::Mrow => "Mrow",
        Kind::Ms => "Ms",
        Kind::Mspace => "Mspace",
        Kind::Msqrt => "Msqrt",
        Kind::Mstyle => "Mstyle",
        Kind::Msub => "Msub",
        Kind::Msubsup => "Msubsup",
        Kind::Msup => "Msup",
        Kind::Mtable => "Mtable",
        Kind::Mtd => "Mtd",
        Kind::Mtext => "Mtext",
        Kind::Mtr => "Mtr",
        Kind::Munder => "Munder",
        Kind::Munderover => "Munderover",
        Kind::Semantics => "Semantics",
        Kind::Unknown => "Unknown",
    }
}
