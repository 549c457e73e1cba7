//! What holds of all fractions.
//!
//! A law is proved where it is a contract, so each function here has one and computes nothing.
ghost use Rattle.std.specs.Prelude.{◌≡◌, None, ℤ, pos, Bool, ◌≤ℤ◌, ◌<ℤ◌, ◌-ℤ◌};
ghost use Rattle.fixed_units.specs.declared.boxes.MathBox.{MathBox};
ghost use Rattle.font_metrics.specs.Metrics.{MetricsValue};
ghost use Rattle.fractions.specs.Lengths.{rule_lengths_of, stack_lengths_of};
ghost use Rattle.fractions.specs.Placing.{fraction_of};
ghost use Rattle.fractions.specs.Laws.{KeepsGaps, ink_gap, StandsInTheMiddle};

/// The ink of a denominator keeps its least gap to the rule, and that of a numerator does but for
/// the odd unit of an odd thickness.
pub fn ink_keeps_its_gaps_to_the_rule()
    ensures { (m : MetricsValue) (top bottom : MathBox) (thickness : ℤ) (display : Bool) (size : ℤ)
        →
        pos 0 <ℤ thickness →
        KeepsGaps (rule_lengths_of m size display) top bottom thickness
        (fraction_of m top bottom thickness display size) }
{}

/// A stack has no rule, and at least the least gap between the ink of its parts. A thickness below
/// 0 counts as 0.
pub fn the_ink_of_a_stack_keeps_the_least_gap()
    ensures rule { (m : MetricsValue) (top bottom : MathBox) (thickness : ℤ) (display : Bool)
        (size : ℤ) →
        thickness ≤ℤ pos 0 → (fraction_of m top bottom thickness display size).rule ≡ None }
    ensures gap { (m : MetricsValue) (top bottom : MathBox) (thickness : ℤ) (display : Bool)
        (size : ℤ) →
        thickness ≤ℤ pos 0 →
        (stack_lengths_of m size display).gap
        ≤ℤ ink_gap top bottom (fraction_of m top bottom thickness display size) }
{}

/// Both parts stand in the middle, to the unit, and 1 px or more from both ends.
pub fn parts_stand_in_the_middle()
    ensures { (m : MetricsValue) (top bottom : MathBox) (thickness : ℤ) (display : Bool) (size : ℤ)
        →
        StandsInTheMiddle top bottom (fraction_of m top bottom thickness display size) }
{}
