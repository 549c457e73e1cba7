ghost use Rattle.std.specs.Prelude.{◌≡◌, ◌^◌, pos, ◌≤ℤ◌};
ghost use Rattle.radicals.specs.Lengths.{root_lengths_of, index_lengths_of, AreRootLengthsWithin, AreIndexLengthsWithin};

use font_metrics::{ConstName, Metrics};

/// The constants of a root at one size, in units.
#[derive(Clone, Copy, Debug)]
pub struct RootLengths {
    /// How thick the rule is.
    pub thickness: i64,
    /// The gap between the rule and the ink under it.
    pub gap: i64,
    /// What stays free above the rule.
    pub extra: i64,
}

impl RootLengths {
    /// The constants of these metrics at a font size, for display style or for text style.
    #[tactic(auto, using(fixed_units::proofs::Signed::from_bits), unfolding(crate::specs::Lengths::root_lengths_of))]
    pub fn at(metrics: &Metrics, size: i64, display: bool) -> RootLengths
        requires size_low { pos 0 ≤ℤ size }
        requires size_high { size ≤ℤ pos (2 ^ 20) }
        ensures value { result ≡ root_lengths_of metrics.now size display }
        ensures within { AreRootLengthsWithin (2 ^ 32) result }
    {
        RootLengths {
            thickness: metrics.constant(ConstName::RadicalRuleThickness, size),
            gap: if display {
                metrics.constant(ConstName::RadicalDisplayStyleVerticalGap, size)
            } else {
                metrics.constant(ConstName::RadicalVerticalGap, size)
            },
            extra: metrics.constant(ConstName::RadicalExtraAscender, size),
        }
    }
}

/// The constants of an index: kerns at one size, in units, and a percent.
#[derive(Clone, Copy, Debug)]
pub struct IndexLengths {
    /// The space ahead of the index.
    pub kern_before: i64,
    /// The space behind it; below 0, the surd stands over it.
    pub kern_after: i64,
    /// How much of the root's ink lies below the foot of the index's, in percent.
    pub raise: i64,
}

impl IndexLengths {
    /// The constants of these metrics at a font size.
    #[tactic(auto, using(fixed_units::proofs::Signed::from_bits), unfolding(crate::specs::Lengths::index_lengths_of))]
    pub fn at(metrics: &Metrics, size: i64) -> IndexLengths
        requires size_low { pos 0 ≤ℤ size }
        requires size_high { size ≤ℤ pos (2 ^ 20) }
        ensures value { result ≡ index_lengths_of metrics.now size }
        ensures within { AreIndexLengthsWithin (2 ^ 32) result }
    {
        IndexLengths {
            kern_before: metrics.constant(ConstName::RadicalKernBeforeDegree, size),
            kern_after: metrics.constant(ConstName::RadicalKernAfterDegree, size),
            raise: metrics.percent(ConstName::RadicalDegreeBottomRaisePercent),
        }
    }
}
