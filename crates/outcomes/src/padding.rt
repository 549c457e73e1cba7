ghost use Rattle.std.specs.Prelude.{◌≡◌, ◌*◌, ◌^◌, ◌≤ℤ◌, pos, IfOk, IfSome};
ghost use Rattle.fixed_units.specs.Boxes.{IsBoxWithin};
ghost use Rattle.fixed_units.specs.Numbers.{IsWithin};
ghost use Rattle.css_lengths.specs.Lengths.{resolved};
ghost use Rattle.font_metrics.specs.Metrics.{ex_of};
ghost use Rattle.layout_model.specs.Equations.{padded_outcome};
ghost use Rattle.layout_model.specs.Rows.{absolute, length_in, measure, padded_of, padded_rise, padded_start};

use crate::element::Element;
use crate::row::{along, row_in};
use css_lengths::{LengthText, Unit, read_length, resolve};
use embellished::View;
use fixed_units::{List, MathBox, Memory, half};
use font_metrics::Metrics;
use layout_model::Outcome;
use math_tree::Attributes;
use std::alloc::Global;

/// A padded row (MathML Core 3.3.6).
pub fn padded_outcome<V: View>(alloc: Global, e: &Element<V>) -> Result<Outcome, Memory>
    ensures { IfOk result (λ outcome. outcome ≡ padded_outcome e.now) }
{
    let row = row_in(alloc, e)?;
    let frame = padded(&row.frame, e.attributes(), e.size(), e.metrics());
    let start = start(e.attributes(), e.size(), e.metrics());
    let rise = rise(e.attributes(), e.size(), e.metrics());
    let offsets = along(alloc, e, &row, start, -rise)?;
    Ok(e.outcome(alloc, frame, offsets, List::make(alloc)))
}

/// The box round a padded row; ink is that of the row where it stands.
#[tactic(auto, using(fixed_units::proofs::Signed::from_bits), unfolding(layout_model::specs::Rows::padded_of, layout_model::specs::Rows::padded_width, layout_model::specs::Rows::padded_ascent, layout_model::specs::Rows::padded_descent))]
fn padded(row: &MathBox, attributes: &Attributes, size: i64, metrics: &Metrics) -> MathBox
    requires row_in { IsBoxWithin (2 ^ 50) row.now }
    requires size_low { pos 0 ≤ℤ size }
    requires size_high { size ≤ℤ pos (2 ^ 20) }
    ensures { result ≡ padded_of metrics.now size attributes.now row.now }
{
    let width = measure(attributes, "width", row.width, size, metrics);
    let rise = rise(attributes, size, metrics);
    MathBox {
        width,
        ascent: measure(attributes, "height", row.ascent, size, metrics),
        descent: measure(attributes, "depth", row.descent, size, metrics),
        ink_ascent: row.ink_ascent + rise,
        ink_descent: row.ink_descent - rise,
        italic: 0,
        accent: half(width),
    }
}

/// Where the row begins.
#[tactic(auto, using(fixed_units::proofs::Signed::from_bits), unfolding(layout_model::specs::Rows::padded_start))]
fn start(attributes: &Attributes, size: i64, metrics: &Metrics) -> i64
    requires size_low { pos 0 ≤ℤ size }
    requires size_high { size ≤ℤ pos (2 ^ 20) }
    ensures value { result ≡ padded_start metrics.now size attributes.now }
    ensures within { IsWithin (2 ^ 62) result }
{
    measure(attributes, "lspace", 0, size, metrics)
}

/// How far the row is raised.
#[tactic(auto, using(fixed_units::proofs::Signed::from_bits), unfolding(layout_model::specs::Rows::padded_rise))]
fn rise(attributes: &Attributes, size: i64, metrics: &Metrics) -> i64
    requires size_low { pos 0 ≤ℤ size }
    requires size_high { size ≤ℤ pos (2 ^ 20) }
    ensures value { result ≡ padded_rise metrics.now size attributes.now }
    ensures within { IsWithin (2 ^ 62) result }
{
    match length_in(attributes, "voffset", size, metrics) {
        Some(length) => length,
        None => 0,
    }
}

/// A length that counts as 0 where it is negative, or else a default.
fn measure(attributes: &Attributes, name: &str, default: i64, size: i64, metrics: &Metrics) -> i64
    requires default { IsWithin (2 ^ 50) default }
    requires size_low { pos 0 ≤ℤ size }
    requires size_high { size ≤ℤ pos (2 ^ 20) }
    ensures value { result ≡ measure metrics.now size attributes.now name.now default }
    ensures within { IsWithin (2 ^ 62) result }
{
    match length_in(attributes, name, size, metrics) {
        Some(length) => 0i64.max(length),
        None => default,
    }
}

/// The length that an attribute gives at a font size; a percentage counts as absent.
#[tactic(auto, using(fixed_units::proofs::Signed::from_bits), unfolding(layout_model::specs::Rows::length_in))]
fn length_in(attributes: &Attributes, name: &str, size: i64, metrics: &Metrics) -> Option<i64>
    requires size_low { pos 0 ≤ℤ size }
    requires size_high { size ≤ℤ pos (2 ^ 20) }
    ensures value { result ≡ length_in metrics.now size attributes.now name.now }
    ensures within { IfSome result (IsWithin (10 ^ 9 * 2 ^ 32)) }
{
    let length = read_length(attributes.get(name)?)?;
    match length.unit {
        Unit::Percent => None,
        _ => Some(at_size(length, size, metrics)),
    }
}

/// A length in units at a font size.
fn at_size(length: LengthText, size: i64, metrics: &Metrics) -> i64
    requires length_in { IsWithin (10 ^ 15) length.millionths }
    requires size_low { pos 0 ≤ℤ size }
    requires size_high { size ≤ℤ pos (2 ^ 20) }
    ensures value { result ≡ resolved length size (ex_of metrics.now size) (pos 0) }
    ensures within { IsWithin (10 ^ 9 * 2 ^ 32) result }
{
    metrics.is_taken();
    resolve(length, size, metrics.ex(size), 0)
}
