/// A corner of a glyph, at which a script may be moved toward it or away (OpenType "MATH",
/// "MathKernInfo").
#[derive(Clone, Copy, Debug, PartialEq, Eq)]
pub enum Corner {
    TopRight,
    TopLeft,
    BottomRight,
    BottomLeft,
}
