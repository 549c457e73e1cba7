ghost use Rattle.std.specs.Prelude.{◌≡◌, ◌*◌, ◌^◌, ◌≤ℤ◌, pos, IfSome};
ghost use Rattle.fixed_units.specs.Numbers.{IsWithin};
ghost use Rattle.token_boxes.specs.Lengths.{length_in, absolute_in, length_named, absolute_named, at_size};

use css_lengths::{LengthText, Unit, read_length, resolve};
use font_metrics::Metrics;
use math_tree::Attributes;

/// The length that an attribute gives at a font size, where percentages are of a length.
#[tactic(auto, using(fixed_units::proofs::Signed::from_bits), unfolding(crate::specs::Lengths::length_in))]
pub fn length_in(
    attributes: &Attributes,
    name: &str,
    percent_of: i64,
    size: i64,
    metrics: &Metrics,
) -> Option<i64>
    requires percent_of_in { IsWithin (2 ^ 34) percent_of }
    requires size_low { pos 0 ≤ℤ size }
    requires size_high { size ≤ℤ pos (2 ^ 20) }
    ensures value { result ≡ length_in metrics.now size percent_of name.now attributes.now }
    ensures within { IfSome result (IsWithin (10 ^ 9 * 2 ^ 32)) }
{
    match length_named(attributes, name) {
        Some(length) => Some(at_size(length, percent_of, size, metrics)),
        None => None,
    }
}

/// The length that an attribute gives at a font size, where a percentage counts as absent.
#[tactic(auto, using(fixed_units::proofs::Signed::from_bits), unfolding(crate::specs::Lengths::absolute_in))]
pub fn absolute_in(attributes: &Attributes, name: &str, size: i64, metrics: &Metrics) -> Option<i64>
    requires size_low { pos 0 ≤ℤ size }
    requires size_high { size ≤ℤ pos (2 ^ 20) }
    ensures value { result ≡ absolute_in metrics.now size name.now attributes.now }
    ensures within { IfSome result (IsWithin (10 ^ 9 * 2 ^ 32)) }
{
    match absolute_named(attributes, name) {
        Some(length) => Some(at_size(length, 0, size, metrics)),
        None => None,
    }
}

/// A length in units at a font size.
fn at_size(length: LengthText, percent_of: i64, size: i64, metrics: &Metrics) -> i64
    requires length_in { IsWithin (10 ^ 15) length.millionths }
    requires percent_of_in { IsWithin (2 ^ 34) percent_of }
    requires size_low { pos 0 ≤ℤ size }
    requires size_high { size ≤ℤ pos (2 ^ 20) }
    ensures value { result ≡ at_size metrics.now size percent_of length }
    ensures within { IsWithin (10 ^ 9 * 2 ^ 32) result }
{
    metrics.is_taken();
    resolve(length, size, metrics.ex(size), percent_of)
}

fn length_named(attributes: &Attributes, name: &str) -> Option<LengthText>
    ensures value { result ≡ length_named name.now attributes.now }
    ensures within { IfSome result (λ length. IsWithin (10 ^ 15) length.millionths) }
{
    read_length(attributes.get(name)?)
}

fn absolute_named(attributes: &Attributes, name: &str) -> Option<LengthText>
    ensures value { result ≡ absolute_named name.now attributes.now }
    ensures within { IfSome result (λ length. IsWithin (10 ^ 15) length.millionths) }
{
    let length = length_named(attributes, name)?;
    match length.unit {
        Unit::Percent => None,
        _ => Some(length),
    }
}
