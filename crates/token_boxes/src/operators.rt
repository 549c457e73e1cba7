ghost use Rattle.std.specs.Prelude.{◌≡◌, ◌^◌, ◌≤ℤ◌, pos, IfOk};
ghost use Rattle.token_boxes.specs.Operator.{operator_of, unspaced_leaf, lone_operator, IsPull};
ghost use Rattle.token_boxes.specs.Token.{IsLeaf};

use crate::leaf::{Drawn, Leaf};
use crate::sizes::space_at;
use crate::stretched::{Pulled, large, sideways, span, upward};
use crate::tokens::{lone, lone_letter, word_leaf};
use embellished::{Core, operator_properties, shown_text};
use fixed_units::{Memory, Pull};
use font_metrics::Metrics;
use math_tree::{Attributes, Head};
use op_dictionary::{Axis, Form, Properties};
use std::alloc::Global;
use style_scope::Style;

/// An `mo` in a form, at a font size (MathML Core 3.2.4.3, "Layout of operators"): stretched to
/// what pulls it, or large in display style, where its text is one character; else like a token.
/// Its spaces stand beside its box. `core` is what its attributes say of it.
#[tactic(auto, using(fixed_units::proofs::Signed::from_bits), unfolding(crate::specs::Operator::operator_of))]
pub fn operator(
    alloc: Global,
    head: &Head,
    core: &Core,
    style: &Style,
    size: i64,
    form: Form,
    pull: Pull,
    metrics: &Metrics,
) -> Result<Leaf, Memory>
    requires pull { IsPull pull }
    requires size_low { pos 0 ≤ℤ size }
    requires size_high { size ≤ℤ pos (2 ^ 20) }
    ensures { IfOk result
        (IsLeaf (operator_of metrics.now head.now core.now style.now size form pull)) }
{
    let properties = operator_properties(core, form, metrics.extra());
    let drawn = unspaced_leaf(alloc, head, &properties, style.display, pull, size, metrics)?;
    let attributes = &head.attributes;
    Ok(Leaf {
        before: space_at(attributes, "lspace", properties.lspace, size, metrics),
        after: space_at(attributes, "rspace", properties.rspace, size, metrics),
        ..drawn
    })
}

/// An operator before its spaces are known.
fn unspaced_leaf(
    alloc: Global,
    head: &Head,
    properties: &Properties,
    display: bool,
    pull: Pull,
    size: i64,
    metrics: &Metrics,
) -> Result<Leaf, Memory>
    requires pull { IsPull pull }
    requires size_low { pos 0 ≤ℤ size }
    requires size_high { size ≤ℤ pos (2 ^ 20) }
    ensures { IfOk result
        (IsLeaf (unspaced_leaf metrics.now size head.now properties.now display pull)) }
{
    let text = shown_text(alloc, head.text.as_str())?;
    match lone(text.as_str()) {
        Some(letter) => {
            let attributes = &head.attributes;
            let drawn = lone_operator(letter, attributes, properties, display, pull, size, metrics);
            Leaf::of_drawn(alloc, drawn)
        }
        None => word_leaf(alloc, text.as_str(), size, metrics),
    }
}

/// An operator of one character.
fn lone_operator(
    letter: char,
    attributes: &Attributes,
    properties: &Properties,
    display: bool,
    pull: Pull,
    size: i64,
    metrics: &Metrics,
) -> Drawn
    requires pull { IsPull pull }
    requires size_low { pos 0 ≤ℤ size }
    requires size_high { size ≤ℤ pos (2 ^ 20) }
    ensures { result
        ≡ lone_operator metrics.now size attributes.now properties.now display pull letter }
{
    match pull {
        Pull::Block(_, _) => {
            let axis = Axis::Block;
            let pulled = Pulled { letter, axis, pull };
            let span = span(pulled, attributes, properties, size, metrics);
            upward(letter, span, size, metrics)
        }
        Pull::Inline(_) => {
            let axis = Axis::Inline;
            let pulled = Pulled { letter, axis, pull };
            let span = span(pulled, attributes, properties, size, metrics);
            sideways(letter, span, size, metrics)
        }
        Pull::Free if properties.largeop && display => {
            large(letter, properties.symmetric, size, metrics)
        }
        Pull::Free => lone_letter(letter, size, metrics),
    }
}
