//! `properties`: the properties of an operator in a form.

use crate::kinds::elements::{element_of, truth_letter};
use crate::kinds::operators::{ByLines, form_in};
use case_format::{Case, Fault, Fields, written};
use embellished::{Core, known_of, operator_properties};
use math_tree::{Kind, Node};
use op_dictionary::{Extra, Properties};
use std::alloc::{AllocError, Global};
use std::fmt::Write;

/// The kind `properties`.
pub struct OfProperties;

impl ByLines for OfProperties {
    fn keys() -> &'static [&'static str] {
        &["element", "form", "metrics"]
    }

    fn add_answer(
        lines: &Extra,
        case: Case,
        fields: Fields,
        words: &mut String,
    ) -> Result<(), Fault> {
        let form = form_in(fields)?;
        let core = core_in(case, fields)?;
        written(add_properties(operator_properties(&core, form, lines), words))
    }
}

/// The core of the key `element`.
fn core_in(case: Case, fields: Fields) -> Result<Core, Fault> {
    let element = element_of(case.alloc, fields.value("element")?)?;
    let core = core_of(case.alloc, &element);
    element.discard();
    core
}

/// The core of an `mo`.
fn core_of(alloc: Global, element: &Node) -> Result<Core, Fault> {
    if !matches!(element.head.kind, Kind::Mo) {
        return Err(Fault::NotAnElement);
    }
    let known = known_of(alloc, element)?;
    known.facts.core.ok_or(Fault::NotAnElement)
}

/// The two spaces, and a letter for each truth value.
fn add_properties(properties: Properties, words: &mut String) -> Result<(), AllocError> {
    let lspace = properties.lspace;
    let rspace = properties.rspace;
    let stretchy = truth_letter(properties.stretchy);
    let symmetric = truth_letter(properties.symmetric);
    let largeop = truth_letter(properties.largeop);
    let movablelimits = truth_letter(properties.movablelimits);
    let letters = format_args!("{stretchy}{symmetric}{largeop}{movablelimits}");
    write!(words, "{lspace} {rspace} {letters}")
}
