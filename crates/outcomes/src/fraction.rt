ghost use Rattle.std.specs.Prelude.{◌≡◌, ◌*◌, ◌^◌, pos, ◌≤ℤ◌, codes, IfOk, IfSome};
ghost use Rattle.std.specs.Int.{int_max};
ghost use Rattle.std.specs.Option.{option_and_then, option_map_or};
ghost use Rattle.css_lengths.specs.Lengths.{length_of, resolved};
ghost use Rattle.fixed_units.specs.Numbers.{IsWithin};
ghost use Rattle.font_metrics.specs.Metrics.{constant_of, ex_of};
ghost use Rattle.font_metrics.specs.declared.constants.ConstName.TheVariants.{FractionRuleThickness};
ghost use Rattle.math_tree.specs.Attributes.{value_of};
ghost use Rattle.layout_model.specs.Elements.{offset};
ghost use Rattle.layout_model.specs.Equations.{fraction_outcome, over_and_under, thickness_of};

use crate::element::Element;
use crate::listing::{list_of, marks_if};
use css_lengths::{LengthText, read_length, resolve};
use embellished::View;
use fixed_units::Memory;
use font_metrics::{ConstName, Metrics};
use fractions::{Fraction, Spot, fraction};
use layout_model::{Offset, Outcome};
use math_tree::Attributes;
use std::alloc::Global;

/// A numerator over a denominator (MathML Core 3.3.2).
pub fn fraction_outcome<V: View>(alloc: Global, e: &Element<V>) -> Result<Outcome, Memory>
    ensures { IfOk result (λ outcome. outcome ≡ fraction_outcome e.now) }
{
    let (top, bottom) = (e.frame(0), e.frame(1));
    let display = e.context().style.display;
    let whole = fraction(&top, &bottom, thickness(e), display, e.size(), e.metrics());
    over_and_under(alloc, e, &whole)
}

fn over_and_under<V: View>(
    alloc: Global,
    e: &Element<V>,
    fraction: &Fraction,
) -> Result<Outcome, Memory>
    ensures { IfOk result (λ outcome. outcome ≡ over_and_under e.now fraction.now) }
{
    let top = offset_at(0, &fraction.top);
    let bottom = offset_at(1, &fraction.bottom);
    let offsets = list_of(alloc, &[top, bottom])?;
    let marks = marks_if(alloc, fraction.rule)?;
    Ok(e.outcome(alloc, fraction.frame, offsets, marks))
}

fn offset_at(kid: u32, spot: &Spot) -> Offset
    ensures { result ≡ offset kid spot.now.x spot.now.y }
{
    Offset {
        kid,
        x: spot.x,
        y: spot.y,
    }
}

/// The thickness of the rule, in units.
#[tactic(auto, using(fixed_units::proofs::Signed::from_bits), unfolding(layout_model::specs::Equations::thickness_of))]
fn thickness<V: View>(e: &Element<V>) -> i64
    ensures value { result ≡ thickness_of e.now }
    ensures within { IsWithin (10 ^ 9 * 2 ^ 32) result }
{
    thickness_at(e.attributes(), e.size(), e.metrics())
}

/// The thickness of a rule at a font size, never negative: that of the attribute, of which a
/// percentage is of the font's own, or else the font's own (MathML Core 3.3.2).
fn thickness_at(attributes: &Attributes, size: i64, metrics: &Metrics) -> i64
    requires size_low { pos 0 ≤ℤ size }
    requires size_high { size ≤ℤ pos (2 ^ 20) }
    ensures value { let own = constant_of metrics.now FractionRuleThickness size in
        result ≡ int_max (pos 0) (option_map_or (λ length. resolved length size (ex_of metrics.now
        size) own)
        (option_and_then length_of (value_of (codes "linethickness") attributes.now)) own) }
    ensures within { IsWithin (10 ^ 9 * 2 ^ 32) result }
{
    let own = metrics.constant(ConstName::FractionRuleThickness, size);
    match line_thickness(attributes) {
        Some(length) => at_size(length, size, own, metrics).max(0),
        None => own.max(0),
    }
}

/// The thickness that an element gives its rule.
fn line_thickness(attributes: &Attributes) -> Option<LengthText>
    ensures value { result ≡ option_and_then length_of (value_of (codes "linethickness")
        attributes.now) }
    ensures within { IfSome result (λ length. IsWithin (10 ^ 15) length.millionths) }
{
    read_length(attributes.get("linethickness")?)
}

/// A length in units at a font size, where percentages are of another.
fn at_size(length: LengthText, size: i64, own: i64, metrics: &Metrics) -> i64
    requires length_in { IsWithin (10 ^ 15) length.millionths }
    requires size_low { pos 0 ≤ℤ size }
    requires size_high { size ≤ℤ pos (2 ^ 20) }
    requires own_in { IsWithin (2 ^ 34) own }
    ensures value { result ≡ resolved length size (ex_of metrics.now size) own }
    ensures within { IsWithin (10 ^ 9 * 2 ^ 32) result }
{
    metrics.is_taken();
    resolve(length, size, metrics.ex(size), own)
}
