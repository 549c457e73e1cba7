//! What holds of all multiscripts.
//!
//! A law is proved where it is a contract, so each function here has one and computes nothing.
ghost use Rattle.std.specs.Prelude.{ℤ, Bool, List, [], ◌∷◌};
ghost use Rattle.fixed_units.specs.Boxes.{IsUnion};
ghost use Rattle.fixed_units.specs.declared.boxes.MathBox.{MathBox};
ghost use Rattle.font_metrics.specs.Metrics.{MetricsValue};
ghost use Rattle.multiscripts.specs.Heights.{all_shifts_of, moved};
ghost use Rattle.multiscripts.specs.Laws.{AllKeepGap, PrescriptsEndTogether, FirstPairLeans, LaterPairsDont, behind, IsLaidOutAs};
ghost use Rattle.multiscripts.specs.Placing.{multi_of};
ghost use Rattle.multiscripts.specs.declared.parts.Pair.{Pair};
ghost use Rattle.scripts.specs.Beside.{sub_sup_of};
ghost use Rattle.scripts.specs.Kerns.{no_corners};
ghost use Rattle.scripts.specs.Lengths.{pair_lengths_of};

/// The ink of the scripts of each pair keeps the least gap, though all are moved as far as those of
/// another pair.
pub fn the_ink_of_each_pair_keeps_the_least_gap()
    ensures { (m : MetricsValue) (base : MathBox) (large cramped : Bool) (pairs : List Pair)
        (size : ℤ) →
        AllKeepGap (pair_lengths_of m size).gap pairs (multi_of m base large cramped pairs size) }
{}

/// The box reaches as far as the farthest of the base and all scripts.
pub fn the_box_is_a_union()
    ensures { (m : MetricsValue) (base : MathBox) (large cramped : Bool) (pairs : List Pair)
        (size : ℤ) →
        IsUnion (base ∷ moved (all_shifts_of m size cramped base pairs) pairs)
        (multi_of m base large cramped pairs size).frame }
{}

/// The two prescripts of a pair end at one place.
pub fn prescripts_end_together()
    ensures { (m : MetricsValue) (base : MathBox) (large cramped : Bool) (pairs : List Pair)
        (size : ℤ) →
        PrescriptsEndTogether pairs (multi_of m base large cramped pairs size) }
{}

/// The base leans over the first pair behind it, whatever prescripts stand in between in the list,
/// and over no other.
pub fn the_base_leans_over_one_pair()
    ensures first { (m : MetricsValue) (base : MathBox) (large cramped : Bool) (pairs : List Pair)
        (size : ℤ) →
        FirstPairLeans base pairs (multi_of m base large cramped pairs size) }
    ensures later { (m : MetricsValue) (base : MathBox) (large cramped : Bool) (pairs : List Pair)
        (size : ℤ) →
        LaterPairsDont pairs (multi_of m base large cramped pairs size) }
{}

/// One pair behind its base is laid out as a subscript and a superscript are.
pub fn one_pair_is_two_scripts()
    ensures { (m : MetricsValue) (base : MathBox) (large cramped : Bool) (sub sup : MathBox)
        (size : ℤ) →
        IsLaidOutAs (sub_sup_of m base large cramped sub sup no_corners size)
        (multi_of m base large cramped (behind sub sup ∷ []) size) }
{}
