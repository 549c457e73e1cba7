//! One function a rule, as `specs/Rules.antt` names them.
ghost use Rattle.std.specs.Prelude.{◌≡◌, ◌≤◌, ◌^◌, pos, ◌≤ℤ◌, IfSome};
ghost use Rattle.fixed_units.specs.Numbers.{IsWithin};
ghost use Rattle.style_scope.specs.Rules as rules;
ghost use Rattle.style_scope.specs.Sizes.{IsStyle};

use crate::attributes::{direction, displaystyle, scriptlevel};
use crate::style::{Place, Style};
use css_lengths::{LengthText, resolve};
use font_metrics::Metrics;
use math_tree::{Attributes, Kind};

/// Whether a child is an accent below or above its base. Own choice: such a child keeps the depth.
fn is_accent(place: Place) -> bool
    ensures { result ≡ rules.is_accent_of place.parent place }
{
    match place.parent {
        Kind::Munder => (place.index == 1) & place.accentunder,
        Kind::Mover => (place.index == 1) & place.accent,
        Kind::Munderover => {
            ((place.index == 1) & place.accentunder) | ((place.index == 2) & place.accent)
        }
        _ => false,
    }
}

/// How many levels deeper than its parent a child stands.
#[tactic(auto, unfolding(crate::specs::Rules::levels_of))]
fn levels(place: Place, display: bool) -> u8
    ensures value { result ≡ rules.levels_of place.parent place display }
    ensures few { result ≤ 2 }
{
    match place.parent {
        Kind::Mfrac => u8::from(!display),
        Kind::Mroot => 2 * u8::from(place.index == 1),
        _ => u8::from(place.parent.is_scripted() & (0 < place.index) & !is_accent(place)),
    }
}

/// Whether a child is set in the compact style, whatever its parent's.
#[tactic(auto, unfolding(crate::specs::Rules::is_compact_in))]
fn is_compact(place: Place) -> bool
    ensures { result ≡ rules.is_compact_in place.parent place }
{
    match place.parent {
        Kind::Mfrac => true,
        Kind::Mroot => place.index == 1,
        _ => place.parent.is_scripted() & (0 < place.index),
    }
}

/// Whether a child is cramped, whatever its parent.
#[tactic(auto, unfolding(crate::specs::Rules::is_cramped_in))]
fn is_cramped(place: Place) -> bool
    ensures { result ≡ rules.is_cramped_in place.parent place }
{
    match place.parent {
        Kind::Mfrac | Kind::Msub | Kind::Msubsup => place.index == 1,
        Kind::Mmultiscripts => place.subscript,
        Kind::Mover | Kind::Munderover => (place.index == 0) & place.accent,
        _ => false,
    }
}

/// What the place of a child makes of its parent's style.
#[tactic(auto, unfolding(crate::specs::Rules::by_place))]
pub fn by_place(place: Place, style: &Style) -> Style
    requires { IsStyle style.now }
    ensures value { result ≡ rules.by_place place style.now }
    ensures depth { result.depth ≤ 17 }
    ensures base { result.base ≡ style.now.base }
    ensures base_depth { result.base_depth ≡ style.now.base_depth }
{
    Style {
        base: style.base,
        base_depth: style.base_depth,
        depth: style.depth + levels(place, style.display),
        display: style.display & !is_compact(place),
        cramped: style.cramped | is_cramped(place),
        rtl: style.rtl,
    }
}

/// What the name of an element makes of a style.
#[tactic(auto, unfolding(crate::specs::Rules::by_name))]
pub fn by_name(kind: Kind, style: Style) -> Style
    ensures value { result ≡ rules.by_name kind style }
    ensures depth { result.depth ≡ style.depth }
    ensures base { result.base ≡ style.base }
    ensures base_depth { result.base_depth ≡ style.base_depth }
{
    match kind {
        Kind::Msqrt | Kind::Mroot => Style {
            cramped: true,
            ..style
        },
        Kind::Mtable => Style {
            display: false,
            ..style
        },
        _ => style,
    }
}

/// What `dir` makes of a style.
#[tactic(auto, unfolding(crate::specs::Rules::by_direction))]
pub fn by_direction(attributes: &Attributes, style: Style) -> Style
    ensures value { result ≡ rules.by_direction attributes.now style }
    ensures depth { result.depth ≡ style.depth }
    ensures base { result.base ≡ style.base }
    ensures base_depth { result.base_depth ≡ style.base_depth }
{
    Style {
        rtl: direction(attributes).unwrap_or(style.rtl),
        ..style
    }
}

/// What `displaystyle` makes of a style.
#[tactic(auto, unfolding(crate::specs::Rules::by_display))]
pub fn by_display(attributes: &Attributes, style: Style) -> Style
    ensures value { result ≡ rules.by_display attributes.now style }
    ensures depth { result.depth ≡ style.depth }
    ensures base { result.base ≡ style.base }
    ensures base_depth { result.base_depth ≡ style.base_depth }
{
    Style {
        display: displaystyle(attributes).unwrap_or(style.display),
        ..style
    }
}

/// What `scriptlevel` makes of a style below a parent of this depth. Own choice: no depth is above
/// 15.
#[tactic(auto, unfolding(crate::specs::Rules::by_level))]
pub fn by_level(parent_depth: u8, attributes: &Attributes, style: Style) -> Style
    ensures value { result ≡ rules.by_level parent_depth attributes.now style }
    ensures depth { result.depth ≤ 15 }
    ensures base { result.base ≡ style.base }
    ensures base_depth { result.base_depth ≡ style.base_depth }
{
    let depth = scriptlevel(attributes, parent_depth).unwrap_or(u16::from(style.depth));
    Style {
        depth: depth.min(15) as u8,
        ..style
    }
}

/// What `mathsize` makes of a style below a parent of this size.
#[tactic(auto, unfolding(crate::specs::Rules::by_size))]
pub fn by_size(
    metrics: &Metrics,
    parent_size: i64,
    length: Option<LengthText>,
    style: Style,
) -> Style
    requires size_low { pos 0 ≤ℤ parent_size }
    requires size_high { parent_size ≤ℤ pos (2 ^ 20) }
    requires length_in { IfSome length (λ length. IsWithin (10 ^ 15) length.millionths) }
    requires length_low { IfSome length (λ length. pos 0 ≤ℤ length.millionths) }
    requires style { IsStyle style }
    ensures value { result ≡ rules.by_size metrics.now parent_size length style }
    ensures style { IsStyle result }
{
    metrics.is_taken();
    match length {
        None => style,
        Some(length) => Style {
            base: resolve(length, parent_size, metrics.ex(parent_size), parent_size),
            base_depth: style.depth,
            ..style
        },
    }
}
