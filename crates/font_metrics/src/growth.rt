use crate::glyph::GlyphId;

/// A larger form of a glyph (OpenType MATH, "MathGlyphVariantRecord").
#[derive(Clone, Copy, Debug, PartialEq, Eq)]
pub struct Variant {
    pub glyph: GlyphId,
    /// How far it reaches along its axis, in design units.
    pub measure: i64,
}

/// A part of which a glyph of any size is built (OpenType MATH, "GlyphPartRecord"). Lengths are in
/// design units.
#[derive(Clone, Copy, Debug, PartialEq, Eq)]
pub struct Part {
    pub glyph: GlyphId,
    /// Whether it may be repeated or left out.
    pub extender: bool,
    /// How far the part before it may overlap it.
    pub start: i64,
    /// How far the part after it may overlap it.
    pub end: i64,
    /// Its length along the axis.
    pub full: i64,
}
