use fixed_units::List;

/// How far a script is moved at a corner of a glyph, in design units (OpenType "MATH", "MathKern").
#[derive(Drop)]
pub struct Kern {
    /// The value below the first height.
    pub lowest: i32,
    /// The heights, which rise, with the value from each on.
    pub steps: List<KernStep>,
}

/// A height from which on a kern has another value, in design units.
#[derive(Clone, Copy, Debug, PartialEq, Eq)]
pub struct KernStep {
    pub height: i32,
    pub value: i32,
}
