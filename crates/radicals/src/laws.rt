//! What holds of all radicals.
//!
//! A law is proved where it is a contract, so each function here has one and computes nothing.
ghost use Rattle.std.specs.Prelude.{◌≡◌, ℤ, Bool};
ghost use Rattle.fixed_units.specs.declared.boxes.MathBox.{MathBox};
ghost use Rattle.font_metrics.specs.Metrics.{MetricsValue};
ghost use Rattle.radicals.specs.Laws.{gap_under_rule, BeginsInside};
ghost use Rattle.radicals.specs.Lengths.{root_lengths_of};
ghost use Rattle.radicals.specs.Placing.{square_root_of, root_with_index_of};

/// The ink under a root has just its gap to the rule, with an index or without one.
pub fn ink_keeps_its_gap_to_the_rule()
    ensures square_root { (m : MetricsValue) (base : MathBox) (display : Bool) (size : ℤ) →
        gap_under_rule base (square_root_of m base display size)
        ≡ (root_lengths_of m size display).gap }
    ensures root_with_index { (m : MetricsValue) (base index : MathBox) (display : Bool) (size : ℤ)
        →
        gap_under_rule base (root_with_index_of m base index display size)
        ≡ (root_lengths_of m size display).gap }
{}

/// Neither an index nor its radical begins before the root's start.
pub fn nothing_begins_before_the_start()
    ensures { (m : MetricsValue) (base index : MathBox) (display : Bool) (size : ℤ) →
        BeginsInside (root_with_index_of m base index display size) }
{}
