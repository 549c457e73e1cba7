ghost use Rattle.std.specs.Prelude.{◌≡◌};
ghost use Rattle.font_metrics.specs.Kept.{glyph_of_measures};

/// The number of a glyph: its place among the glyphs of the metrics file, counted from 0.
#[derive(Clone, Copy, Debug, PartialEq, Eq)]
pub struct GlyphId(pub u16);

/// What layout knows of a glyph, in design units (OpenType "MATH", "Glyph info").
#[derive(Clone, Copy, Debug, PartialEq, Eq)]
pub struct Glyph {
    /// How far the next glyph stands to the right.
    pub advance: i64,
    /// How far the ink reaches above the baseline.
    pub ink_ascent: i64,
    /// How far the ink reaches below the baseline.
    pub ink_descent: i64,
    /// The italics correction.
    pub italic: i64,
    /// Where an accent is attached, if the font says so.
    pub accent: Option<i64>,
}

/// A glyph as it is kept. A font has thousands, so the numbers have the width of their ranges.
#[derive(Clone, Copy)]
pub struct Measures {
    pub advance: u16,
    pub ink_ascent: i32,
    pub ink_descent: i32,
    pub italic: i32,
    pub accent: Option<i32>,
}

impl Measures {
    /// The glyph that is kept.
    pub fn glyph(&self) -> Glyph
        ensures { result ≡ glyph_of_measures self.now }
    {
        Glyph {
            advance: i64::from(self.advance),
            ink_ascent: i64::from(self.ink_ascent),
            ink_descent: i64::from(self.ink_descent),
            italic: i64::from(self.italic),
            accent: self.accent.map(i64::from),
        }
    }
}
