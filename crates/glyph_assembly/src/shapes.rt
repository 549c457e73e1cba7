ghost use Rattle.std.specs.Prelude.{◌≡◌};
ghost use Rattle.glyph_assembly.specs.Shaping.{mark_of};

use fixed_units::MathBox;
use font_metrics::{GlyphId, Mark};
use op_dictionary::Axis;

/// What a glyph was made into to reach a length (MathML Core 5.3).
#[derive(Clone, Copy, Debug, PartialEq, Eq)]
pub enum Shape {
    /// The glyph itself.
    Base,
    /// One of its larger forms.
    Variant(GlyphId),
    /// An assembly of its parts: each extender stands `count` times, and each piece overlaps the
    /// one before it by `overlap` units of 1/1024 px.
    Built { count: i64, overlap: i64 },
}

/// What a glyph was made into, and the box of that, whose ascent and descent are those of the ink.
#[derive(Clone, Copy, Debug, PartialEq, Eq)]
pub struct Shaped {
    pub shape: Shape,
    pub frame: MathBox,
}

impl Shape {
    /// What is drawn of a glyph that was made into this, at a place and a font size.
    pub fn mark(self, glyph: GlyphId, axis: Axis, x: i64, y: i64, size: i64) -> Mark
        ensures { result ≡ mark_of self glyph axis x y size }
    {
        match self {
            Shape::Base => Mark::Glyph { x, y, size, glyph },
            Shape::Variant(larger) => Mark::Glyph {
                x,
                y,
                size,
                glyph: larger,
            },
            Shape::Built { count, overlap } => Mark::Built {
                x,
                y,
                size,
                axis,
                glyph,
                count,
                overlap,
            },
        }
    }
}
