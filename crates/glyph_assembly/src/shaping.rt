ghost use Rattle.std.specs.Prelude.{◌≡◌, ◌<◌, ◌≤◌, ◌^◌, length, pos, ◌≤ℤ◌, IfSome};
ghost use Rattle.std.specs.List.{All};
ghost use Rattle.fixed_units.specs.Boxes.{IsBoxWithin};
ghost use Rattle.fixed_units.specs.Numbers.{IsWithin};
ghost use Rattle.font_metrics.specs.Taken.{IsVariant};
ghost use Rattle.glyph_assembly.specs.Shaping.{base, larger, first_reaching, largest_glyph, shaped_of, display_of};

use crate::assembly::assembly;
use crate::glyphs::{glyph_frame, glyph_reach};
use crate::shapes::{Shape, Shaped};
use crate::sums::Sums;
use font_metrics::{ConstName, GlyphId, Metrics, Variant};
use op_dictionary::Axis;

/// A glyph that is to be as long as a target along an axis, in units of 1/1024 px at a font size:
/// itself, its first variant that is long enough, an assembly, or its last variant (MathML Core
/// 5.3, "shape a stretchy glyph").
pub fn shape(metrics: &Metrics, glyph: GlyphId, axis: Axis, target: i64, size: i64) -> Shaped
    requires glyph { glyph.0 < length metrics.now.glyphs }
    requires target_in { IsWithin (2 ^ 40) target }
    requires size_low { pos 0 ≤ℤ size }
    requires size_high { size ≤ℤ pos (2 ^ 20) }
    ensures value { result ≡ shaped_of metrics.now glyph.0 axis target size }
    ensures within { IsBoxWithin (2 ^ 41) result.frame }
{
    if target <= glyph_reach(metrics, glyph, axis, size) {
        return base(metrics, glyph, size);
    }
    let variants = metrics.variants(glyph, axis);
    if let Some(variant) = first_reaching(metrics, variants, target, size) {
        return larger(metrics, variant, size);
    }
    let parts = metrics.assembly(glyph, axis);
    let sums = Sums::of_parts(metrics, parts, size);
    if sums.grows() {
        return assembly(metrics, parts, &sums, axis, target, size);
    }
    largest_glyph(metrics, glyph, variants, size)
}

/// A large operator in display style: the first variant along the block axis whose height reaches
/// `DisplayOperatorMinHeight`, else the last variant (MathML Core 3.2.4.3, "Layout of operators").
pub fn display_variant(metrics: &Metrics, glyph: GlyphId, size: i64) -> Shaped
    requires glyph { glyph.0 < length metrics.now.glyphs }
    requires size_low { pos 0 ≤ℤ size }
    requires size_high { size ≤ℤ pos (2 ^ 20) }
    ensures value { result ≡ display_of metrics.now glyph.0 size }
    ensures within { IsBoxWithin (2 ^ 32) result.frame }
{
    let least = metrics.constant(ConstName::DisplayOperatorMinHeight, size);
    let variants = metrics.variants(glyph, Axis::Block);
    match first_reaching(metrics, variants, least, size) {
        Some(variant) => larger(metrics, variant, size),
        None => largest_glyph(metrics, glyph, variants, size),
    }
}

/// The first of the variants, in the order of the file, whose measure reaches the target.
fn first_reaching(
    metrics: &Metrics,
    variants: &[Variant],
    target: i64,
    size: i64,
) -> Option<GlyphId>
    requires variants { All (IsVariant (length metrics.now.glyphs)) variants.now }
    requires size_low { pos 0 ≤ℤ size }
    requires size_high { size ≤ℤ pos (2 ^ 20) }
    ensures value { result ≡ first_reaching metrics.now size target variants.now }
    ensures known { IfSome result (λ glyph. glyph.0 < length metrics.now.glyphs) }
{
    for variant in variants {
        if target <= metrics.scale(variant.measure, size) {
            return Some(variant.glyph);
        }
    }
    None
}

/// The last of the variants, or the glyph itself without any.
fn largest_glyph(metrics: &Metrics, glyph: GlyphId, variants: &[Variant], size: i64) -> Shaped
    requires glyph { glyph.0 < length metrics.now.glyphs }
    requires variants { All (IsVariant (length metrics.now.glyphs)) variants.now }
    requires size_low { pos 0 ≤ℤ size }
    requires size_high { size ≤ℤ pos (2 ^ 20) }
    ensures value { result ≡ largest_glyph metrics.now glyph.0 size variants.now }
    ensures within { IsBoxWithin (2 ^ 32) result.frame }
{
    match variants.last() {
        Some(variant) => larger(metrics, variant.glyph, size),
        None => base(metrics, glyph, size),
    }
}

/// The glyph itself.
fn base(metrics: &Metrics, glyph: GlyphId, size: i64) -> Shaped
    requires glyph { glyph.0 < length metrics.now.glyphs }
    requires size_low { pos 0 ≤ℤ size }
    requires size_high { size ≤ℤ pos (2 ^ 20) }
    ensures value { result ≡ base metrics.now glyph.0 size }
    ensures within { IsBoxWithin (2 ^ 32) result.frame }
{
    Shaped {
        shape: Shape::Base,
        frame: glyph_frame(metrics, glyph, size),
    }
}

/// A larger form of it, with that form's own box.
fn larger(metrics: &Metrics, variant: GlyphId, size: i64) -> Shaped
    requires glyph { variant.0 < length metrics.now.glyphs }
    requires size_low { pos 0 ≤ℤ size }
    requires size_high { size ≤ℤ pos (2 ^ 20) }
    ensures value { result ≡ larger metrics.now size variant }
    ensures within { IsBoxWithin (2 ^ 32) result.frame }
{
    Shaped {
        shape: Shape::Variant(variant),
        frame: glyph_frame(metrics, variant, size),
    }
}
