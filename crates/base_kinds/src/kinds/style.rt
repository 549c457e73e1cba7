//! `style`: the style and the font size of an element, from the root down.
ghost use Rattle.std.specs.Prelude.{IfOk};
ghost use Rattle.style_scope.specs.Sizes.{IsStyle};

use crate::kinds::elements::{element_of, truth_letter};
use case_format::{Case, Fault, Fields, written};
use font_metrics::Metrics;
use math_tree::{Kind, Node};
use serde_json::Value;
use std::alloc::{AllocError, Global};
use std::fmt::Write;
use style_scope::{Place, Style, child_style, font_size, root_style};

const STEP: [&str; 5] = ["element", "index", "accent", "accentunder", "subscript"];

/// Adds the answer of a case of `style`.
pub fn answer(case: Case, words: &mut String) -> Result<(), Fault> {
    let fields = Fields::of_value(case.value, &["metrics", "root", "steps"])?;
    let metrics = case.metrics(fields)?;
    let answered = add_answer(case.alloc, &metrics, fields, words);
    metrics.discard();
    answered
}

/// Adds the style of the last element of a path, and its font size.
fn add_answer(
    alloc: Global,
    metrics: &Metrics,
    fields: Fields,
    words: &mut String,
) -> Result<(), Fault> {
    let mut at = At::at_root(alloc, fields, metrics)?;
    for step in fields.items("steps")? {
        at = at.below(alloc, step, metrics)?;
    }
    written(add_style(&at.style, metrics, words))
}

/// Where a path has come to.
#[derive(Clone, Copy)]
struct At {
    kind: Kind,
    style: Style,
}

impl At {
    /// Where a path begins.
    fn at_root(alloc: Global, fields: Fields, metrics: &Metrics) -> Result<At, Fault>
        ensures { IfOk result (λ at. IsStyle at.style) }
    {
        let root = element_of(alloc, fields.value("root")?)?;
        let at = At {
            kind: root.head.kind,
            style: root_style(&root.head, metrics),
        };
        root.discard();
        Ok(at)
    }

    /// One step further down.
    fn below(self, alloc: Global, step: &Value, metrics: &Metrics) -> Result<At, Fault>
        requires { IsStyle self.style }
        ensures { IfOk result (λ at. IsStyle at.style) }
    {
        let fields = Fields::of_value(step, &STEP)?;
        let child = element_of(alloc, fields.value("element")?)?;
        let at = self.at_child(&child, fields, metrics);
        child.discard();
        at
    }

    /// Where a child stands that these fields place.
    fn at_child(self, child: &Node, fields: Fields, metrics: &Metrics) -> Result<At, Fault>
        requires { IsStyle self.style }
        ensures { IfOk result (λ at. IsStyle at.style) }
    {
        let place = place_in(self.kind, fields)?;
        let style = style_below(&self.style, place, child, metrics)?;
        Ok(At {
            kind: child.head.kind,
            style,
        })
    }
}

/// The place of a child.
fn place_in(parent: Kind, fields: Fields) -> Result<Place, Fault> {
    Ok(Place {
        parent,
        index: fields.within("index", 0, 65_534)? as u32,
        accent: fields.flag_or_false("accent")?,
        accentunder: fields.flag_or_false("accentunder")?,
        subscript: fields.flag_or_false("subscript")?,
    })
}

/// The style of a child below a parent whose font isn't too large.
fn style_below(
    parent: &Style,
    place: Place,
    child: &Node,
    metrics: &Metrics,
) -> Result<Style, Fault>
    requires { IsStyle parent.now }
    ensures { IfOk result IsStyle }
{
    match font_size(parent, metrics) {
        Some(_) => Ok(child_style(parent, place, &child.head, metrics)),
        None => Err(Fault::out_of_range("steps")),
    }
}

/// Adds a style and its font size.
fn add_style(style: &Style, metrics: &Metrics, words: &mut String) -> Result<(), AllocError>
    requires { IsStyle style.now }
{
    let (base, base_depth, depth) = (style.base, style.base_depth, style.depth);
    let display = truth_letter(style.display);
    let cramped = truth_letter(style.cramped);
    write!(words, "{base} {base_depth} {depth}")?;
    write!(words, " {display} {cramped}")?;
    match font_size(style, metrics) {
        Some(size) => write!(words, " {size}"),
        None => words.push_str(" none"),
    }
}
