use fixed_units::MathBox;
use font_metrics::Mark;

/// Where a part stands in the box of its parent, in units: `x` from the box's start to the part's,
/// `y` from baseline to baseline, downward.
#[derive(Clone, Copy, Debug, PartialEq, Eq)]
pub struct Spot {
    pub x: i64,
    pub y: i64,
}

/// A fraction that is laid out; a stack has no rule.
#[derive(Clone, Copy, Debug, PartialEq, Eq)]
pub struct Fraction {
    pub frame: MathBox,
    pub top: Spot,
    pub bottom: Spot,
    pub rule: Option<Mark>,
}

/// How far the baseline of the numerator lies above that of the fraction, and that of the
/// denominator below it.
#[derive(Clone, Copy, Debug)]
pub struct Shifts {
    pub up: i64,
    pub down: i64,
}
