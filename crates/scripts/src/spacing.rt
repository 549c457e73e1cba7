ghost use Rattle.std.specs.Prelude.{◌≡◌, ◌^◌, pos, ◌≤ℤ◌};
ghost use Rattle.fixed_units.specs.Numbers.{IsWithin};
ghost use Rattle.scripts.specs.LimitGaps.{above_of, below_of, distance_of, extra_of, IsGapWithin};

use crate::parts::LimitCase;
use font_metrics::{ConstName, Metrics};

/// What keeps a limit and its base apart at one size, in units.
#[derive(Clone, Copy, Debug)]
pub enum Gap {
    /// A limit of a large operator: how far its baseline lies at least beyond the ink of the base,
    /// and the least gap between their ink.
    Limit { rise: i64, least: i64 },
    /// A limit of a base that stretches: its usual shift, and the least gap between their ink.
    Stack { shift: i64, least: i64 },
    /// An accent: the ink of the base counts at least so high.
    Accent { height: i64 },
    /// A bar: the gap between their ink, and what its box counts more.
    Bar { gap: i64, extra: i64 },
}

impl Gap {
    /// What keeps an overscript apart (MathML Core 3.4.2.4).
    #[tactic(auto, using(fixed_units::proofs::Signed::from_bits), unfolding(crate::specs::LimitGaps::above_of))]
    pub fn above(case: LimitCase, accent: bool, size: i64, metrics: &Metrics) -> Gap
        requires size_low { pos 0 ≤ℤ size }
        requires size_high { size ≤ℤ pos (2 ^ 20) }
        ensures value { result ≡ above_of metrics.now case accent size }
        ensures within { IsGapWithin (2 ^ 32) result }
    {
        match case {
            LimitCase::Large => Gap::Limit {
                rise: metrics.constant(ConstName::UpperLimitBaselineRiseMin, size),
                least: metrics.constant(ConstName::UpperLimitGapMin, size),
            },
            LimitCase::Stretchy => Gap::Stack {
                shift: metrics.constant(ConstName::StretchStackTopShiftUp, size),
                least: metrics.constant(ConstName::StretchStackGapAboveMin, size),
            },
            LimitCase::Plain => {
                if accent {
                    Gap::Accent {
                        height: metrics.constant(ConstName::AccentBaseHeight, size),
                    }
                } else {
                    Gap::Bar {
                        gap: metrics.constant(ConstName::OverbarVerticalGap, size),
                        extra: metrics.constant(ConstName::OverbarExtraAscender, size),
                    }
                }
            }
        }
    }

    /// What keeps an underscript apart (MathML Core 3.4.2.3).
    #[tactic(auto, using(fixed_units::proofs::Signed::from_bits), unfolding(crate::specs::LimitGaps::below_of))]
    pub fn below(case: LimitCase, accent: bool, size: i64, metrics: &Metrics) -> Gap
        requires size_low { pos 0 ≤ℤ size }
        requires size_high { size ≤ℤ pos (2 ^ 20) }
        ensures value { result ≡ below_of metrics.now case accent size }
        ensures within { IsGapWithin (2 ^ 32) result }
    {
        match case {
            LimitCase::Large => Gap::Limit {
                rise: metrics.constant(ConstName::LowerLimitBaselineDropMin, size),
                least: metrics.constant(ConstName::LowerLimitGapMin, size),
            },
            LimitCase::Stretchy => Gap::Stack {
                shift: metrics.constant(ConstName::StretchStackBottomShiftDown, size),
                least: metrics.constant(ConstName::StretchStackGapBelowMin, size),
            },
            LimitCase::Plain => {
                if accent {
                    Gap::Bar { gap: 0, extra: 0 }
                } else {
                    Gap::Bar {
                        gap: metrics.constant(ConstName::UnderbarVerticalGap, size),
                        extra: metrics.constant(ConstName::UnderbarExtraDescender, size),
                    }
                }
            }
        }
    }

    /// How far the baseline of the limit lies from that of the base. Both inks are measured toward
    /// the other one.
    #[tactic(auto, using(fixed_units::proofs::Signed::from_bits), unfolding(crate::specs::LimitGaps::distance_of))]
    pub fn distance(self, base_ink: i64, limit_ink: i64) -> i64
        requires gap_in { IsGapWithin (2 ^ 32) self }
        requires base_in { IsWithin (2 ^ 30) base_ink }
        requires limit_in { IsWithin (2 ^ 30) limit_ink }
        ensures value { result ≡ distance_of self base_ink limit_ink }
        ensures within { IsWithin (2 ^ 34) result }
    {
        match self {
            Gap::Limit { rise, least } => base_ink + rise.max(least + limit_ink),
            Gap::Stack { shift, least } => shift.max(base_ink + least + limit_ink),
            Gap::Accent { height } => base_ink.max(height) + limit_ink,
            Gap::Bar { gap, extra: _ } => base_ink + gap + limit_ink,
        }
    }

    /// What the box of the limit counts beyond its own, on the side away from the base.
    #[tactic(auto, using(fixed_units::proofs::Signed::from_bits), unfolding(crate::specs::LimitGaps::extra_of))]
    pub fn extra(self) -> i64
        requires { IsGapWithin (2 ^ 32) self }
        ensures value { result ≡ extra_of self }
        ensures within { IsWithin (2 ^ 32) result }
    {
        match self {
            Gap::Bar { gap: _, extra } => extra,
            Gap::Limit { .. } | Gap::Stack { .. } | Gap::Accent { .. } => 0,
        }
    }
}
