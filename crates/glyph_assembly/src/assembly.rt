ghost use Rattle.std.specs.Prelude.{◌≡◌, ◌<◌, ◌≤◌, ◌^◌, length, pos, ◌≤ℤ◌, map};
ghost use Rattle.std.specs.List.{All};
ghost use Rattle.fixed_units.specs.Boxes.{IsBoxWithin};
ghost use Rattle.fixed_units.specs.Numbers.{IsWithin};
ghost use Rattle.font_metrics.specs.Taken.{IsPart};
ghost use Rattle.glyph_assembly.specs.Counts.{IsSmall, Grows};
ghost use Rattle.glyph_assembly.specs.Pieces.{sums_of, built_frame, largest, measure_at, measure_of};
ghost use Rattle.glyph_assembly.specs.Shaping.{assembly_of};

use crate::counts::{greatest_overlap, least_count};
use crate::joints::widest_overlap;
use crate::shapes::{Shape, Shaped};
use crate::sums::Sums;
use fixed_units::{MathBox, half};
use font_metrics::{GlyphId, Metrics, Part};
use op_dictionary::Axis;

/// The assembly of parts, with these sums, that reaches a target (MathML Core 5.3, "Glyph
/// assembly").
pub fn assembly(
    metrics: &Metrics,
    parts: &[Part],
    sums: &Sums,
    axis: Axis,
    target: i64,
    size: i64,
) -> Shaped
    requires parts { All (IsPart (length metrics.now.glyphs)) parts.now }
    requires sums { sums.now ≡ sums_of metrics.now size parts.now }
    requires small { IsSmall sums.now }
    requires grows { Grows sums.now }
    requires target_in { IsWithin (2 ^ 40) target }
    requires size_low { pos 0 ≤ℤ size }
    requires size_high { size ≤ℤ pos (2 ^ 20) }
    ensures value { result ≡ assembly_of metrics.now parts.now axis target size }
    ensures within { IsBoxWithin (2 ^ 41) result.frame }
{
    let count = least_count(sums, target);
    let widest = widest_overlap(metrics, parts, count, size);
    let overlap = greatest_overlap(sums, target, count, widest);
    let extent = sums.length(count, overlap);
    Shaped {
        shape: Shape::Built {
            count: count as i64,
            overlap: overlap as i64,
        },
        frame: built_frame(metrics, parts, axis, extent, size),
    }
}

/// The box of an assembly that is so long.
fn built_frame(metrics: &Metrics, parts: &[Part], axis: Axis, extent: i64, size: i64) -> MathBox
    requires parts { All (IsPart (length metrics.now.glyphs)) parts.now }
    requires size_low { pos 0 ≤ℤ size }
    requires size_high { size ≤ℤ pos (2 ^ 20) }
    requires extent_in { IsWithin (2 ^ 41) extent }
    ensures value { result ≡ built_frame axis metrics.now parts.now extent size }
    ensures within { IsBoxWithin (2 ^ 41) result }
{
    match axis {
        Axis::Block => {
            let width = largest(metrics, parts, Measure::Advance, size);
            MathBox {
                width,
                ascent: extent,
                descent: 0,
                ink_ascent: extent,
                ink_descent: 0,
                italic: 0,
                accent: half(width),
            }
        }
        Axis::Inline => {
            let ink_ascent = largest(metrics, parts, Measure::InkAscent, size);
            let ink_descent = largest(metrics, parts, Measure::InkDescent, size);
            MathBox {
                width: extent,
                ascent: ink_ascent,
                descent: ink_descent,
                ink_ascent,
                ink_descent,
                italic: 0,
                accent: half(extent),
            }
        }
    }
}

/// A measure of a glyph.
#[derive(Clone, Copy)]
enum Measure {
    Advance,
    InkAscent,
    InkDescent,
}

/// The largest of that measure among the parts, those too that stand 0 times; 0 without parts.
fn largest(metrics: &Metrics, parts: &[Part], measure: Measure, size: i64) -> i64
    requires parts { All (IsPart (length metrics.now.glyphs)) parts.now }
    requires size_low { pos 0 ≤ℤ size }
    requires size_high { size ≤ℤ pos (2 ^ 20) }
    ensures value { result ≡ largest (map (measure_of measure metrics.now size) parts.now) }
    ensures within { IsWithin (2 ^ 32) result }
{
    let Some((first, others)) = parts.split_first() else {
        return 0;
    };
    let mut most = measured(metrics, first.glyph, measure, size);
    for part in others {
        most = most.max(measured(metrics, part.glyph, measure, size));
    }
    most
}

fn measured(metrics: &Metrics, glyph: GlyphId, measure: Measure, size: i64) -> i64
    requires glyph { glyph.0 < length metrics.now.glyphs }
    requires size_low { pos 0 ≤ℤ size }
    requires size_high { size ≤ℤ pos (2 ^ 20) }
    ensures value { result ≡ measure_at measure metrics.now size glyph.0 }
    ensures within { IsWithin (2 ^ 32) result }
{
    let glyph = metrics.glyph(glyph);
    match measure {
        Measure::Advance => metrics.scale(glyph.advance, size),
        Measure::InkAscent => metrics.scale(glyph.ink_ascent, size),
        Measure::InkDescent => metrics.scale(glyph.ink_descent, size),
    }
}
