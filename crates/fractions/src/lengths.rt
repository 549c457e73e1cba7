ghost use Rattle.std.specs.Prelude.{◌≡◌, ◌^◌, pos, ◌≤ℤ◌};
ghost use Rattle.fixed_units.specs.Numbers.{IsWithin};
ghost use Rattle.font_metrics.specs.Metrics.{constant_of, IsPercent};
ghost use Rattle.fractions.specs.Lengths.{in_style, rule_lengths_of, stack_lengths_of, AreRuleLengthsWithin, AreStackLengthsWithin};

use font_metrics::{ConstName, Metrics};

/// The constants of a fraction with a rule at one size, in units.
#[derive(Clone, Copy, Debug)]
pub struct RuleLengths {
    /// The height of the axis, on which the rule lies.
    pub axis: i64,
    /// The usual shift of the numerator.
    pub shift_up: i64,
    /// The least gap between the numerator's ink and the rule.
    pub gap_above: i64,
    /// The usual shift of the denominator.
    pub shift_down: i64,
    /// The least gap between the rule and the denominator's ink.
    pub gap_below: i64,
}

impl RuleLengths {
    /// The constants of these metrics at a font size, for display style or for text style.
    #[tactic(auto, using(fixed_units::proofs::Signed::from_bits), unfolding(crate::specs::Lengths::rule_lengths_of))]
    pub fn at(metrics: &Metrics, size: i64, display: bool) -> RuleLengths
        requires size_low { pos 0 ≤ℤ size }
        requires size_high { size ≤ℤ pos (2 ^ 20) }
        ensures value { result ≡ rule_lengths_of metrics.now size display }
        ensures within { AreRuleLengthsWithin (2 ^ 32) result }
    {
        RuleLengths {
            axis: metrics.constant(ConstName::AxisHeight, size),
            shift_up: in_style(
                metrics,
                size,
                display,
                ConstName::FractionNumeratorDisplayStyleShiftUp,
                ConstName::FractionNumeratorShiftUp,
            ),
            gap_above: in_style(
                metrics,
                size,
                display,
                ConstName::FractionNumDisplayStyleGapMin,
                ConstName::FractionNumeratorGapMin,
            ),
            shift_down: in_style(
                metrics,
                size,
                display,
                ConstName::FractionDenominatorDisplayStyleShiftDown,
                ConstName::FractionDenominatorShiftDown,
            ),
            gap_below: in_style(
                metrics,
                size,
                display,
                ConstName::FractionDenomDisplayStyleGapMin,
                ConstName::FractionDenominatorGapMin,
            ),
        }
    }
}

/// The constants of a stack at one size, in units.
#[derive(Clone, Copy, Debug)]
pub struct StackLengths {
    /// The usual shift of the upper part.
    pub shift_up: i64,
    /// The usual shift of the lower part.
    pub shift_down: i64,
    /// The least gap between their ink.
    pub gap: i64,
}

impl StackLengths {
    /// The constants of these metrics at a font size, for display style or for text style.
    #[tactic(auto, using(fixed_units::proofs::Signed::from_bits), unfolding(crate::specs::Lengths::stack_lengths_of))]
    pub fn at(metrics: &Metrics, size: i64, display: bool) -> StackLengths
        requires size_low { pos 0 ≤ℤ size }
        requires size_high { size ≤ℤ pos (2 ^ 20) }
        ensures value { result ≡ stack_lengths_of metrics.now size display }
        ensures within { AreStackLengthsWithin (2 ^ 32) result }
    {
        StackLengths {
            shift_up: in_style(
                metrics,
                size,
                display,
                ConstName::StackTopDisplayStyleShiftUp,
                ConstName::StackTopShiftUp,
            ),
            shift_down: in_style(
                metrics,
                size,
                display,
                ConstName::StackBottomDisplayStyleShiftDown,
                ConstName::StackBottomShiftDown,
            ),
            gap: in_style(
                metrics,
                size,
                display,
                ConstName::StackDisplayStyleGapMin,
                ConstName::StackGapMin,
            ),
        }
    }
}

/// The constant for a style: one in display style, and another in text style.
fn in_style(
    metrics: &Metrics,
    size: i64,
    display: bool,
    in_display: ConstName,
    in_text: ConstName,
) -> i64
    requires size_low { pos 0 ≤ℤ size }
    requires size_high { size ≤ℤ pos (2 ^ 20) }
    requires display_length { ¬ (IsPercent in_display) }
    requires text_length { ¬ (IsPercent in_text) }
    ensures value { result ≡ constant_of metrics.now (in_style display in_display in_text) size }
    ensures within { IsWithin (2 ^ 32) result }
{
    if display {
        metrics.constant(in_display, size)
    } else {
        metrics.constant(in_text, size)
    }
}
