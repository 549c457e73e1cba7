use fixed_units::MathBox;
use font_metrics::Mark;

/// Where a part stands in the box of its parent, in units: `x` from the box's start to the part's,
/// `y` from baseline to baseline, downward.
#[derive(Clone, Copy, Debug, PartialEq, Eq)]
pub struct Spot {
    pub x: i64,
    pub y: i64,
}

/// A radical that is laid out. A square root has no index, and (0, 0) in its place.
#[derive(Clone, Copy, Debug, PartialEq, Eq)]
pub struct Radical {
    pub frame: MathBox,
    pub surd: Mark,
    pub index: Spot,
    pub base: Spot,
    pub rule: Mark,
}
