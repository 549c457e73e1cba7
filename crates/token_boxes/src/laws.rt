//! What holds of all leaves.
//!
//! A law is proved where it is a contract, so each function here has one and computes nothing.
ghost use Rattle.std.specs.Prelude.{◌≡◌, ◌≤◌, ◌^◌, ◌≤ℤ◌, ◌-ℤ◌, ◌*ℤ◌, ℕ, ℤ, pos, length, List, true};
ghost use Rattle.fixed_units.specs.Boxes.{IsStored};
ghost use Rattle.font_metrics.specs.Metrics.{MetricsValue, constant_of};
ghost use Rattle.font_metrics.specs.Taken.{IsTaken};
ghost use Rattle.font_metrics.specs.declared.constants.ConstName.TheVariants.{AxisHeight};
ghost use Rattle.glyph_assembly.specs.Targets.{Span};
ghost use Rattle.token_boxes.specs.declared.leaf.Leaf.{Leaf};
ghost use Rattle.token_boxes.specs.Laws.{RisesBy};
ghost use Rattle.token_boxes.specs.Operator.{upward, large};
ghost use Rattle.token_boxes.specs.Token.{IsLeaf, far, width_of};

/// A leaf whose box can be stored is that of its definition, and so is one whose definition has a
/// box that can be stored. So it is the same to test the one or the other.
pub fn what_can_be_stored_is_exact()
    ensures made { (exact leaf : Leaf) → IsLeaf exact leaf → IsStored leaf.frame → leaf ≡ exact }
    ensures defined { (exact leaf : Leaf) → IsLeaf exact leaf → IsStored exact.frame
        → leaf ≡ exact }
{}

/// No metrics make a text of up to 2^28 characters so wide that its leaf isn't exact.
pub fn texts_that_are_read_are_exact()
    ensures { (m : MetricsValue) (size : ℤ) (letters : List ℕ) → IsTaken m → pos 0 ≤ℤ size →
        size ≤ℤ pos (2 ^ 20) → length letters ≤ 2 ^ 28 → width_of m size letters ≤ℤ far }
{}

/// The ink of an operator that is stretched upward and downward has its middle where what it covers
/// has it, to the unit: it rises as much farther above the baseline than below it.
pub fn a_stretched_operator_stands_in_the_middle()
    ensures { (m : MetricsValue) (size : ℤ) (letter : ℕ) (span : Span) →
        RisesBy (span.0 -ℤ span.1) (upward m size letter span).frame }
{}

/// The ink of a large operator that is symmetric has its middle on the axis, to the unit.
pub fn a_large_operator_stands_on_the_axis()
    ensures { (m : MetricsValue) (size : ℤ) (letter : ℕ) →
        RisesBy (pos 2 *ℤ constant_of m AxisHeight size) (large m size true letter).frame }
{}
