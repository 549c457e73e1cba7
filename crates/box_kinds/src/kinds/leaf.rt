//! `token`, `operator`, `space`: elements without children.
ghost use Rattle.token_boxes.specs.Operator.{IsPull};

use crate::values::{ByMetrics, add_mark, element_in, pull_in, size_in};
use case_format::{Fault, Fields, add_box, written};
use embellished::{Core, known_of};
use fixed_units::{Pull, fits, is_stored};
use font_metrics::{Mark, Metrics};
use math_tree::{Kind, Node};
use op_dictionary::Form;
use std::alloc::{AllocError, Global};
use std::fmt::Write;
use style_scope::Style;
use token_boxes::{Leaf, operator, space, token};

/// The kind `token`.
pub struct OfToken;

impl ByMetrics for OfToken {
    fn keys() -> &'static [&'static str] {
        &["metrics", "element", "size"]
    }

    fn add_answer(
        alloc: Global,
        metrics: &Metrics,
        fields: Fields,
        words: &mut String,
    ) -> Result<(), Fault> {
        let size = size_in(fields)?;
        let element = element_in(alloc, fields)?;
        let made = token(alloc, &element.head, size, metrics);
        element.discard();
        let leaf = made?;
        written(add_leaf(metrics, &leaf, words))
    }
}

/// The kind `operator`.
pub struct OfOperator;

impl ByMetrics for OfOperator {
    fn keys() -> &'static [&'static str] {
        &["metrics", "element", "size", "display", "form", "pull"]
    }

    fn add_answer(
        alloc: Global,
        metrics: &Metrics,
        fields: Fields,
        words: &mut String,
    ) -> Result<(), Fault> {
        let pull = pull_in(fields, "pull")?;
        let element = element_in(alloc, fields)?;
        let answered = add_operator(alloc, &element, pull, metrics, fields, words);
        element.discard();
        answered
    }
}

/// The core of an `mo`.
fn core_of(alloc: Global, element: &Node) -> Result<Core, Fault> {
    if !matches!(element.head.kind, Kind::Mo) {
        return Err(Fault::NotAnElement);
    }
    let known = known_of(alloc, element)?;
    known.facts.core.ok_or(Fault::NotAnElement)
}

/// Adds the leaf of an operator.
fn add_operator(
    alloc: Global,
    element: &Node,
    pull: Pull,
    metrics: &Metrics,
    fields: Fields,
    words: &mut String,
) -> Result<(), Fault>
    requires { IsPull pull }
{
    let core = core_of(alloc, element)?;
    let size = size_in(fields)?;
    let form = form_in(fields)?;
    let style = style_of(size, fields.flag("display")?);
    let leaf = operator(
        alloc,
        &element.head,
        &core,
        &style,
        size,
        form,
        pull,
        metrics,
    )?;
    written(add_leaf(metrics, &leaf, words))
}

/// A style of this size, in display style or not.
fn style_of(size: i64, display: bool) -> Style {
    Style {
        base: size,
        base_depth: 0,
        depth: 0,
        display,
        cramped: false,
        rtl: false,
    }
}

/// The kind `space`.
pub struct OfSpace;

impl ByMetrics for OfSpace {
    fn keys() -> &'static [&'static str] {
        &["metrics", "element", "size"]
    }

    fn add_answer(
        alloc: Global,
        metrics: &Metrics,
        fields: Fields,
        words: &mut String,
    ) -> Result<(), Fault> {
        let size = size_in(fields)?;
        let element = element_in(alloc, fields)?;
        let frame = space(&element.head, size, metrics);
        element.discard();
        written(if fits(&frame) {
            add_box(&frame, words)
        } else {
            words.push_str(PAST)
        })
    }
}

/// What is told of a leaf with a number that can't be stored.
const PAST: &str = "range";

/// Adds the box of a leaf, the spaces before and after it, and its marks.
fn add_leaf(metrics: &Metrics, leaf: &Leaf, words: &mut String) -> Result<(), AllocError> {
    if !has_stored(leaf) {
        return words.push_str(PAST);
    }
    let (before, after) = (leaf.before, leaf.after);
    add_box(&leaf.frame, words)?;
    write!(words, "; {before} {after}")?;
    for mark in leaf.marks.as_slice() {
        add_mark(metrics, *mark, words)?;
    }
    Ok(())
}

/// Whether each number of a leaf can be stored.
fn has_stored(leaf: &Leaf) -> bool {
    fits(&leaf.frame)
        && is_stored(leaf.before)
        && is_stored(leaf.after)
        && leaf.marks.as_slice().iter().all(|mark| is_placed(mark))
}

/// Whether the place and the size of a mark can be stored.
fn is_placed(mark: &Mark) -> bool {
    match mark {
        Mark::Glyph { x, y, size, .. } | Mark::Built { x, y, size, .. } => {
            is_stored(*x) && is_stored(*y) && is_stored(*size)
        }
        Mark::Rule {
            x,
            y,
            width,
            height,
        } => is_stored(*x) && is_stored(*y) && is_stored(*width) && is_stored(*height),
    }
}

/// The form of the key `form`.
fn form_in(fields: Fields) -> Result<Form, Fault> {
    match fields.text("form")? {
        "prefix" => Ok(Form::Prefix),
        "infix" => Ok(Form::Infix),
        "postfix" => Ok(Form::Postfix),
        _ => Err(Fault::out_of_range("form")),
    }
}
