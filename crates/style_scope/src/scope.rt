ghost use Rattle.std.specs.Prelude.{◌≡◌, ◌≤◌, ◌^◌, pos, ◌≤ℤ◌, Some};
ghost use Rattle.fixed_units.specs.Numbers.{IsWithin};
ghost use Rattle.style_scope.specs.Rules.{by_size};
ghost use Rattle.style_scope.specs.Sizes.{IsStyle, size_of};
ghost use Rattle.style_scope.specs.Styles.{by_attributes, child_style_of, is_block, root_style_of};

use crate::attributes::mathsize;
use crate::rules::{by_direction, by_display, by_level, by_name, by_place, by_size};
use crate::size::font_size;
use crate::style::{Place, Style};
use css_lengths::LengthText;
use fixed_units::is_word;
use font_metrics::Metrics;
use math_tree::{Attributes, Head};

/// 16 px, at depth 0.
const INITIAL: Style = Style {
    base: 16384,
    base_depth: 0,
    depth: 0,
    display: false,
    cramped: false,
    rtl: false,
};

/// No depth is greater.
const DEEPEST: u8 = 15;

/// The style of the root: 16 px, in display style where its `display` is `block`, and what its
/// attributes say.
#[tactic(auto, unfolding(crate::specs::Styles::root_style_of))]
pub fn root_style(root: &Head, metrics: &Metrics) -> Style
    ensures value { result ≡ root_style_of metrics.now root.now }
    ensures style { IsStyle result }
{
    let display = is_block(&root.attributes);
    by_attributes(
        metrics,
        &INITIAL,
        &root.attributes,
        Style { display, ..INITIAL },
    )
}

/// The style of a child at a place, from its parent's: by its place, by its name and by its
/// attributes, in this order.
#[tactic(auto, unfolding(crate::specs::Styles::child_style_of))]
pub fn child_style(parent: &Style, place: Place, child: &Head, metrics: &Metrics) -> Style
    requires style { IsStyle parent.now }
    requires size { size_of metrics.now parent.now ≤ℤ pos (2 ^ 20) }
    ensures value { result ≡ child_style_of metrics.now parent.now place child.now }
    ensures style { IsStyle result }
{
    let style = by_name(child.kind, by_place(place, parent));
    by_attributes(metrics, parent, &child.attributes, style)
}

/// What the attributes of an element make of a style, below a parent of this style.
#[tactic(auto, unfolding(crate::specs::Styles::by_attributes, crate::specs::Rules::by_size))]
fn by_attributes(metrics: &Metrics, parent: &Style, attributes: &Attributes, style: Style) -> Style
    requires parent { IsStyle parent.now }
    requires size { size_of metrics.now parent.now ≤ℤ pos (2 ^ 20) }
    requires base_low { pos 0 ≤ℤ style.base }
    requires base_high { style.base ≤ℤ pos (2 ^ 62) }
    requires base_depth { style.base_depth ≤ 15 }
    ensures value { result ≡ by_attributes metrics.now parent.now attributes.now style }
    ensures style { IsStyle result }
{
    // Most elements have none, of which nothing needs to be looked up.
    if attributes.as_slice().is_empty() {
        return Style {
            depth: style.depth.min(DEEPEST),
            ..style
        };
    }
    let style = by_display(attributes, by_direction(attributes, style));
    let style = by_level(parent.depth, attributes, style);
    match mathsize(attributes) {
        Some(length) => sized(metrics, parent, length, style),
        None => style,
    }
}

/// What a size makes of a style, below a parent of this style. The parent's font size is found out
/// here, since few elements have a size of their own.
#[tactic(auto, unfolding(crate::specs::Rules::by_size))]
fn sized(metrics: &Metrics, parent: &Style, length: LengthText, style: Style) -> Style
    requires parent { IsStyle parent.now }
    requires size { size_of metrics.now parent.now ≤ℤ pos (2 ^ 20) }
    requires length_in { IsWithin (10 ^ 15) length.millionths }
    requires length_low { pos 0 ≤ℤ length.millionths }
    requires style { IsStyle style }
    ensures value { result ≡ by_size metrics.now (size_of metrics.now parent.now) (Some length)
        style }
    ensures style { IsStyle result }
{
    let size = font_size(parent, metrics).unwrap_or(0);
    by_size(metrics, size, Some(length), style)
}

/// Whether the root is a formula of its own.
fn is_block(attributes: &Attributes) -> bool
    ensures { result ≡ is_block attributes.now }
{
    match attributes.get("display") {
        Some(value) => is_word(value, "block"),
        None => false,
    }
}
