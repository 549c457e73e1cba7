ghost use Rattle.std.specs.Prelude.{◌≡◌, ◌<◌, ◌≤◌, ◌^◌, length, pos, ◌≤ℤ◌};
ghost use Rattle.fixed_units.specs.Boxes.{IsBoxWithin};
ghost use Rattle.fixed_units.specs.Numbers.{IsWithin};
ghost use Rattle.font_metrics.specs.Taken.{IsInDesign};
ghost use Rattle.glyph_assembly.specs.Glyphs.{glyph_frame, glyph_reach, frame_at, accent_at, reach_at, length_at};

use fixed_units::{MathBox, half};
use font_metrics::{Glyph, GlyphId, Metrics};
use op_dictionary::Axis;

/// The box of one glyph at a font size: it stands as high and as deep as its ink.
pub fn glyph_frame(metrics: &Metrics, glyph: GlyphId, size: i64) -> MathBox
    requires glyph { glyph.0 < length metrics.now.glyphs }
    requires size_low { pos 0 ≤ℤ size }
    requires size_high { size ≤ℤ pos (2 ^ 20) }
    ensures value { result ≡ frame_at metrics.now glyph.0 size }
    ensures within { IsBoxWithin (2 ^ 32) result }
{
    let glyph = metrics.glyph(glyph);
    let width = metrics.scale(glyph.advance, size);
    let ink_ascent = metrics.scale(glyph.ink_ascent, size);
    let ink_descent = metrics.scale(glyph.ink_descent, size);
    MathBox {
        width,
        ascent: ink_ascent,
        descent: ink_descent,
        ink_ascent,
        ink_descent,
        italic: metrics.scale(glyph.italic, size),
        accent: accent(metrics, &glyph, width, size),
    }
}

/// Where an accent above the glyph stands: as the font says, else over the middle of the advance.
fn accent(metrics: &Metrics, glyph: &Glyph, advance: i64, size: i64) -> i64
    requires glyph { IsInDesign glyph.now }
    requires advance_in { IsWithin (2 ^ 32) advance }
    requires size_low { pos 0 ≤ℤ size }
    requires size_high { size ≤ℤ pos (2 ^ 20) }
    ensures value { result ≡ accent_at metrics.now glyph.now.accent advance size }
    ensures within { IsWithin (2 ^ 32) result }
{
    match glyph.accent {
        Some(accent) => metrics.scale(accent, size),
        None => half(advance),
    }
}

/// How far the glyph reaches along an axis at a font size, in units: the height of its ink, or its
/// advance.
pub fn glyph_reach(metrics: &Metrics, glyph: GlyphId, axis: Axis, size: i64) -> i64
    requires glyph { glyph.0 < length metrics.now.glyphs }
    requires size_low { pos 0 ≤ℤ size }
    requires size_high { size ≤ℤ pos (2 ^ 20) }
    ensures value { result ≡ reach_at metrics.now glyph.0 axis size }
    ensures within { IsWithin (2 ^ 33) result }
{
    let glyph = metrics.glyph(glyph);
    match axis {
        Axis::Block => {
            metrics.scale(glyph.ink_ascent, size) + metrics.scale(glyph.ink_descent, size)
        }
        Axis::Inline => metrics.scale(glyph.advance, size),
    }
}

/// A length of the metrics file at a font size, in units.
pub fn length_at(metrics: &Metrics, value: i64, size: i64) -> u64
    requires value_in { IsWithin (2 ^ 16) value }
    requires size_low { pos 0 ≤ℤ size }
    requires size_high { size ≤ℤ pos (2 ^ 20) }
    ensures value { result ≡ length_at metrics.now size value }
    ensures within { result ≤ 2 ^ 32 }
{
    metrics.scale(value, size).unsigned_abs()
}
