ghost use Rattle.std.specs.Prelude.{◌≡◌, ◌^◌, pos, ◌≤ℤ◌};
ghost use Rattle.scripts.specs.Lengths.{sub_lengths_of, sup_lengths_of, pair_lengths_of, AreSubLengthsWithin, AreSupLengthsWithin, ArePairLengthsWithin};

use font_metrics::{ConstName, Metrics};

/// The constants of a subscript at one size, in units.
#[derive(Clone, Copy, Debug)]
pub struct SubLengths {
    /// The usual shift.
    pub shift: i64,
    /// How far its ink may reach above the baseline of the base.
    pub top_max: i64,
    /// How far its baseline lies at least below the ink of the base.
    pub drop_min: i64,
}

impl SubLengths {
    /// The constants of these metrics at a font size.
    #[tactic(auto, using(fixed_units::proofs::Signed::from_bits), unfolding(crate::specs::Lengths::sub_lengths_of))]
    pub fn at(metrics: &Metrics, size: i64) -> SubLengths
        requires size_low { pos 0 ≤ℤ size }
        requires size_high { size ≤ℤ pos (2 ^ 20) }
        ensures value { result ≡ sub_lengths_of metrics.now size }
        ensures within { AreSubLengthsWithin (2 ^ 32) result }
    {
        SubLengths {
            shift: metrics.constant(ConstName::SubscriptShiftDown, size),
            top_max: metrics.constant(ConstName::SubscriptTopMax, size),
            drop_min: metrics.constant(ConstName::SubscriptBaselineDropMin, size),
        }
    }
}

/// The constants of a superscript at one size, in units.
#[derive(Clone, Copy, Debug)]
pub struct SupLengths {
    /// The usual shift.
    pub shift: i64,
    /// How far its ink lies at least above the baseline of the base.
    pub bottom_min: i64,
    /// How far its baseline lies at most below the top of the ink of the base.
    pub drop_max: i64,
}

impl SupLengths {
    /// The constants of these metrics at a font size, for a cramped style or for another.
    #[tactic(auto, using(fixed_units::proofs::Signed::from_bits), unfolding(crate::specs::Lengths::sup_lengths_of))]
    pub fn at(metrics: &Metrics, size: i64, cramped: bool) -> SupLengths
        requires size_low { pos 0 ≤ℤ size }
        requires size_high { size ≤ℤ pos (2 ^ 20) }
        ensures value { result ≡ sup_lengths_of metrics.now size cramped }
        ensures within { AreSupLengthsWithin (2 ^ 32) result }
    {
        let shift = if cramped {
            metrics.constant(ConstName::SuperscriptShiftUpCramped, size)
        } else {
            metrics.constant(ConstName::SuperscriptShiftUp, size)
        };
        SupLengths {
            shift,
            bottom_min: metrics.constant(ConstName::SuperscriptBottomMin, size),
            drop_max: metrics.constant(ConstName::SuperscriptBaselineDropMax, size),
        }
    }
}

/// The constants of a subscript under a superscript at one size, in units.
#[derive(Clone, Copy, Debug)]
pub struct PairLengths {
    /// The least gap between their ink.
    pub gap: i64,
    /// How far the superscript's ink may be moved up above the baseline of the base for it.
    pub bottom_max: i64,
}

impl PairLengths {
    /// The constants of these metrics at a font size.
    #[tactic(auto, using(fixed_units::proofs::Signed::from_bits), unfolding(crate::specs::Lengths::pair_lengths_of))]
    pub fn at(metrics: &Metrics, size: i64) -> PairLengths
        requires size_low { pos 0 ≤ℤ size }
        requires size_high { size ≤ℤ pos (2 ^ 20) }
        ensures value { result ≡ pair_lengths_of metrics.now size }
        ensures within { ArePairLengthsWithin (2 ^ 32) result }
    {
        PairLengths {
            gap: metrics.constant(ConstName::SubSuperscriptGapMin, size),
            bottom_max: metrics.constant(ConstName::SuperscriptBottomMaxWithSubscript, size),
        }
    }
}
