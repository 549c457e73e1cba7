use fixed_units::MathBox;
use font_metrics::{Corner, GlyphId};

/// Where a part stands in the box of its parent, in units (1/1024 px): `x` from the box's start to
/// the part's, `y` from baseline to baseline, downward.
#[derive(Clone, Copy, Debug, PartialEq, Eq)]
pub struct Spot {
    pub x: i64,
    pub y: i64,
}

/// A base with scripts that is laid out; the base stands at its start. The place of a script that
/// isn't there is (0, 0).
#[derive(Clone, Copy, Debug, PartialEq, Eq)]
pub struct Scripted {
    pub frame: MathBox,
    pub sub: Spot,
    pub sup: Spot,
}

/// A corner of a glyph at a font size in units: of the only glyph that a base or a script shows.
#[derive(Clone, Copy, Debug, PartialEq, Eq)]
pub struct Inked {
    pub glyph: GlyphId,
    pub corner: Corner,
    pub size: i64,
}

/// The corners whose kerns move scripts: those of the base toward each script, and those of the
/// scripts toward the base. One that isn't there counts 0.
#[derive(Clone, Copy, Debug, PartialEq, Eq)]
pub struct KernFrom {
    pub base_sub: Option<Inked>,
    pub sub: Option<Inked>,
    pub base_sup: Option<Inked>,
    pub sup: Option<Inked>,
}

/// No corner.
pub const NO_CORNERS: KernFrom = KernFrom {
    base_sub: None,
    sub: None,
    base_sup: None,
    sup: None,
};

/// How far the baseline of superscripts lies above that of the base, and that of subscripts below
/// it.
#[derive(Clone, Copy, Debug)]
pub struct Shifts {
    pub up: i64,
    pub down: i64,
}

/// As what the limits of a base are laid out.
#[derive(Clone, Copy, Debug, PartialEq, Eq)]
pub enum LimitCase {
    /// As limits of a large operator.
    Large,
    /// Over and under a base that stretches to the sides.
    Stretchy,
    /// As bars or accents.
    Plain,
}

/// A base with limits that is laid out. The place of a limit that isn't there is (0, 0).
#[derive(Clone, Copy, Debug, PartialEq, Eq)]
pub struct Limits {
    pub frame: MathBox,
    pub base: Spot,
    pub under: Spot,
    pub over: Spot,
}
