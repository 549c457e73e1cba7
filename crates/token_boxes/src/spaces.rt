ghost use Rattle.std.specs.Prelude.{◌≡◌, ◌*◌, ◌^◌, ◌≤ℤ◌, pos};
ghost use Rattle.fixed_units.specs.Numbers.{IsWithin};
ghost use Rattle.token_boxes.specs.Space.{space_of, side_of};

use crate::attributes::absolute_in;
use fixed_units::{MathBox, half};
use font_metrics::Metrics;
use math_tree::Head;

/// The box of an `mspace` at a font size (MathML Core 3.2.5). It takes no memory.
#[tactic(auto, using(fixed_units::proofs::Signed::from_bits), unfolding(crate::specs::Space::space_of))]
pub fn space(head: &Head, size: i64, metrics: &Metrics) -> MathBox
    requires size_low { pos 0 ≤ℤ size }
    requires size_high { size ≤ℤ pos (2 ^ 20) }
    ensures { result ≡ space_of metrics.now head.now size }
{
    let width = side(head, "width", size, metrics);
    let ascent = side(head, "height", size, metrics);
    let descent = side(head, "depth", size, metrics);
    MathBox {
        width,
        ascent,
        descent,
        ink_ascent: ascent,
        ink_descent: descent,
        italic: 0,
        accent: half(width),
    }
}

/// A measure that an attribute gives: 0 where it gives none, and no less than 0.
#[tactic(auto, using(fixed_units::proofs::Signed::from_bits), unfolding(crate::specs::Space::side_of))]
fn side(head: &Head, name: &str, size: i64, metrics: &Metrics) -> i64
    requires size_low { pos 0 ≤ℤ size }
    requires size_high { size ≤ℤ pos (2 ^ 20) }
    ensures value { result ≡ side_of metrics.now head.now name.now size }
    ensures within { IsWithin (10 ^ 9 * 2 ^ 32) result }
{
    absolute_in(&head.attributes, name, size, metrics)
        .unwrap_or(0)
        .max(0)
}
