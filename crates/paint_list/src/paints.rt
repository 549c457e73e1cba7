use fixed_units::Memory;
use font_metrics::GlyphId;
use thiserror::Error;

/// What is painted at a place, in units (1/1024 px): `x` goes to the right and `y` downward.
#[derive(Clone, Copy, Debug, PartialEq, Eq, Drop)]
pub enum Paint {
    /// A glyph at a font size: the place is where its advance begins, on its baseline.
    Glyph {
        x: i64,
        y: i64,
        size: i64,
        glyph: GlyphId,
    },
    /// A filled rectangle: the place is its upper left corner.
    Rule {
        x: i64,
        y: i64,
        width: i64,
        height: i64,
    },
}

/// Why there is no list of what is painted.
#[derive(Clone, Copy, Debug, PartialEq, Eq, Error)]
pub enum PaintRefusal {
    /// More than 33,554,432 glyphs and rules would be painted.
    #[error("too much would be painted")]
    TooMany,
    /// Memory was refused.
    #[error("memory was refused")]
    Memory,
}

impl From<Memory> for PaintRefusal {
    ghost use Rattle.paint_list.specs.declared.paints.PaintRefusal.TheVariants.{Memory as NoMemory};
    ghost use Rattle.std.specs.Prelude.{◌≡◌};

    ghost from_gives = { λ _ refusal. refusal ≡ NoMemory };

    fn from(_: Memory) -> Self {
        PaintRefusal::Memory
    }
}
