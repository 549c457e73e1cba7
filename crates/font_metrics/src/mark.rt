use crate::glyph::GlyphId;
use op_dictionary::Axis;

/// What is drawn at a place, in units (1/1024 px): `x` goes to the right and `y` downward.
#[derive(Clone, Copy, Debug, PartialEq, Eq)]
pub enum Mark {
    /// A glyph at a font size: the place is where its advance begins, on its baseline.
    Glyph {
        x: i64,
        y: i64,
        size: i64,
        glyph: GlyphId,
    },
    /// A filled rectangle: the place is its upper left corner.
    Rule {
        x: i64,
        y: i64,
        width: i64,
        height: i64,
    },
    /// A glyph's assembly along an axis at a font size, each extender `count` times, with `overlap`
    /// between neighbours (OpenType MATH, "GlyphAssembly"): the place is its left end, on its
    /// baseline.
    Built {
        x: i64,
        y: i64,
        size: i64,
        axis: Axis,
        glyph: GlyphId,
        count: i64,
        overlap: i64,
    },
}
