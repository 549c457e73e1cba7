ghost use Rattle.std.specs.Prelude.{◌≡◌, ◌<◌, ◌*◌, ◌^◌, ◌≤ℤ◌, pos, length};
ghost use Rattle.fixed_units.specs.Boxes.{IsBoxWithin};
ghost use Rattle.fixed_units.specs.Numbers.{IsWithin};
ghost use Rattle.glyph_assembly.specs.Targets.{IsStretch, IsInReach};
ghost use Rattle.token_boxes.specs.Operator.{lowered, lowered_glyph, drop_of, span_of, upward, sideways, large_drop, large};

use crate::leaf::Drawn;
use crate::sizes::{least, most};
use fixed_units::{MathBox, Pull, half};
use font_metrics::{ConstName, GlyphId, Metrics};
use glyph_assembly::{Shaped, display_variant, glyph_reach, shape, target};
use math_tree::Attributes;
use op_dictionary::{Axis, Properties};

/// A character that is pulled along an axis.
#[derive(Clone, Copy)]
pub struct Pulled {
    pub letter: char,
    pub axis: Axis,
    pub pull: Pull,
}

/// What a pull has an operator of one character cover: an ascent and a descent, or a width and 0.
#[tactic(auto, using(fixed_units::proofs::Signed::from_bits), unfolding(crate::specs::Operator::span_of))]
pub fn span(
    pulled: Pulled,
    attributes: &Attributes,
    properties: &Properties,
    size: i64,
    metrics: &Metrics,
) -> (i64, i64)
    requires pull { IsStretch pulled.pull }
    requires size_low { pos 0 ≤ℤ size }
    requires size_high { size ≤ℤ pos (2 ^ 20) }
    ensures value { result ≡ span_of metrics.now size attributes.now properties.now.symmetric
        pulled.axis pulled.pull pulled.letter }
    ensures within { IsInReach result }
{
    let glyph = metrics.glyph_of(pulled.letter);
    let reach = glyph_reach(metrics, glyph, pulled.axis, size);
    let least = least(attributes, reach, size, metrics);
    let most = most(attributes, reach, least, size, metrics);
    let axis_height = metrics.constant(ConstName::AxisHeight, size);
    target(pulled.pull, properties, least, most, axis_height)
}

/// An operator that covers an ascent and a descent: its middle comes to be that of both.
pub fn upward(letter: char, span: (i64, i64), size: i64, metrics: &Metrics) -> Drawn
    requires span_in { IsInReach span }
    requires size_low { pos 0 ≤ℤ size }
    requires size_high { size ≤ℤ pos (2 ^ 20) }
    ensures { result ≡ upward metrics.now size letter span }
{
    let glyph = metrics.glyph_of(letter);
    let shaped = shape(metrics, glyph, Axis::Block, span.0 + span.1, size);
    let drop = drop(&shaped.frame, span.0 - span.1);
    lowered_glyph(glyph, Axis::Block, &shaped, drop, size)
}

/// An operator that covers a width: it stays on its baseline.
pub fn sideways(letter: char, span: (i64, i64), size: i64, metrics: &Metrics) -> Drawn
    requires span_in { IsInReach span }
    requires size_low { pos 0 ≤ℤ size }
    requires size_high { size ≤ℤ pos (2 ^ 20) }
    ensures { result ≡ sideways metrics.now size letter span }
{
    let glyph = metrics.glyph_of(letter);
    let shaped = shape(metrics, glyph, Axis::Inline, span.0 + span.1, size);
    lowered_glyph(glyph, Axis::Inline, &shaped, 0, size)
}

/// A large operator in display style.
pub fn large(letter: char, symmetric: bool, size: i64, metrics: &Metrics) -> Drawn
    requires size_low { pos 0 ≤ℤ size }
    requires size_high { size ≤ℤ pos (2 ^ 20) }
    ensures { result ≡ large metrics.now size symmetric letter }
{
    let glyph = metrics.glyph_of(letter);
    let shaped = display_variant(metrics, glyph, size);
    let drop = large_drop(&shaped.frame, symmetric, size, metrics);
    lowered_glyph(glyph, Axis::Block, &shaped, drop, size)
}

/// How far down a large operator goes: a symmetric one has its middle on the axis.
fn large_drop(frame: &MathBox, symmetric: bool, size: i64, metrics: &Metrics) -> i64
    requires frame_in { IsBoxWithin (2 ^ 32) frame.now }
    requires size_low { pos 0 ≤ℤ size }
    requires size_high { size ≤ℤ pos (2 ^ 20) }
    ensures value { result ≡ large_drop metrics.now size symmetric frame.now }
    ensures within { IsWithin (2 ^ 62) result }
{
    if symmetric {
        let axis_height = metrics.constant(ConstName::AxisHeight, size);
        drop(frame, 2 * axis_height)
    } else {
        0
    }
}

/// How far down ink has to go to reach `rise` more above the baseline than below it.
#[tactic(auto, using(fixed_units::proofs::Signed::from_bits), unfolding(crate::specs::Operator::drop_of))]
fn drop(frame: &MathBox, rise: i64) -> i64
    requires frame_in { IsBoxWithin (2 ^ 41) frame.now }
    requires rise_in { IsWithin (7 * 2 ^ 60) rise }
    ensures value { result ≡ drop_of frame.now rise }
    ensures within { IsWithin (2 ^ 62) result }
{
    half(frame.ink_ascent - frame.ink_descent - rise)
}

/// What a glyph was made into, moved down. Nothing but its ink counts of its height.
#[tactic(auto, using(fixed_units::proofs::Signed::from_bits), unfolding(crate::specs::Operator::lowered_glyph))]
fn lowered_glyph(glyph: GlyphId, axis: Axis, shaped: &Shaped, drop: i64, size: i64) -> Drawn
    requires shaped_in { IsBoxWithin (2 ^ 41) shaped.now.frame }
    requires drop_in { IsWithin (2 ^ 62) drop }
    ensures { result ≡ lowered_glyph size glyph axis shaped.now drop }
{
    Drawn {
        frame: lowered(&shaped.frame, drop),
        mark: shaped.shape.mark(glyph, axis, 0, drop, size),
    }
}

#[tactic(auto, using(fixed_units::proofs::Signed::from_bits), unfolding(crate::specs::Operator::lowered))]
fn lowered(frame: &MathBox, drop: i64) -> MathBox
    requires frame_in { IsBoxWithin (2 ^ 41) frame.now }
    requires drop_in { IsWithin (2 ^ 62) drop }
    ensures { result ≡ lowered frame.now drop }
{
    MathBox {
        width: frame.width,
        ascent: frame.ink_ascent - drop,
        descent: frame.ink_descent + drop,
        ink_ascent: frame.ink_ascent - drop,
        ink_descent: frame.ink_descent + drop,
        italic: frame.italic,
        accent: frame.accent,
    }
}
