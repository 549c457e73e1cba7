ghost use Rattle.std.specs.Prelude.{◌≡◌, ◌*◌, ◌^◌, ◌≤ℤ◌, pos, IfSome};
ghost use Rattle.fixed_units.specs.Numbers.{IsWithin};
ghost use Rattle.token_boxes.specs.Operator.{eighteenths, space_at, least_of, most_of, largest_size};

use crate::attributes::length_in;
use fixed_units::{Ratio, round};
use font_metrics::Metrics;
use math_tree::Attributes;

/// The space that `lspace` or `rspace` gives an operator, else so many 18ths of the font size, as
/// the dictionary lists it.
#[tactic(auto, using(fixed_units::proofs::Signed::from_bits), unfolding(crate::specs::Operator::space_at))]
pub fn space_at(
    attributes: &Attributes,
    name: &str,
    listed: u8,
    size: i64,
    metrics: &Metrics,
) -> i64
    requires size_low { pos 0 ≤ℤ size }
    requires size_high { size ≤ℤ pos (2 ^ 20) }
    ensures { result ≡ space_at metrics.now size attributes.now name.now listed }
{
    let listed = eighteenths(listed, size);
    length_in(attributes, name, listed, size, metrics).unwrap_or(listed)
}

/// So many 18ths of a font size, rounded.
#[tactic(auto, using(fixed_units::proofs::Signed::from_bits), unfolding(crate::specs::Operator::eighteenths))]
fn eighteenths(count: u8, size: i64) -> i64
    requires size_low { pos 0 ≤ℤ size }
    requires size_high { size ≤ℤ pos (2 ^ 20) }
    ensures value { result ≡ eighteenths size count }
    ensures within { IsWithin (2 ^ 28) result }
{
    round(Ratio {
        num: i128::from(i64::from(count) * size),
        den: 18,
    })
}

/// Own choice: no least and no largest size counts as more than this, in units.
const LARGEST_SIZE: i64 = 1 << 28;

/// The least size of a stretched operator: `minsize`, of which percentages are of how far the glyph
/// reaches as it is, or that reach.
#[tactic(auto, using(fixed_units::proofs::Signed::from_bits), unfolding(crate::specs::Operator::least_of))]
pub fn least(attributes: &Attributes, reach: i64, size: i64, metrics: &Metrics) -> i64
    requires reach_in { IsWithin (2 ^ 33) reach }
    requires size_low { pos 0 ≤ℤ size }
    requires size_high { size ≤ℤ pos (2 ^ 20) }
    ensures value { result ≡ least_of metrics.now size attributes.now reach }
    ensures low { pos 0 ≤ℤ result }
    ensures high { result ≤ℤ largest_size }
{
    length_in(attributes, "minsize", reach, size, metrics)
        .unwrap_or(reach)
        .max(0)
        .min(LARGEST_SIZE)
}

/// The largest size: `maxsize`, or none.
#[tactic(auto, using(fixed_units::proofs::Signed::from_bits), unfolding(crate::specs::Operator::most_of))]
pub fn most(
    attributes: &Attributes,
    reach: i64,
    least: i64,
    size: i64,
    metrics: &Metrics,
) -> Option<i64>
    requires reach_in { IsWithin (2 ^ 33) reach }
    requires least_low { pos 0 ≤ℤ least }
    requires least_high { least ≤ℤ largest_size }
    requires size_low { pos 0 ≤ℤ size }
    requires size_high { size ≤ℤ pos (2 ^ 20) }
    ensures value { result ≡ most_of metrics.now size attributes.now reach least }
    ensures within { IfSome result (λ most. (least ≤ℤ most) × (most ≤ℤ largest_size)) }
{
    let most = length_in(attributes, "maxsize", reach, size, metrics)?;
    Some(most.max(least).min(LARGEST_SIZE))
}
