//! What holds of all scripts and limits.
//!
//! A law is proved where it is a contract, so each function here has one and computes nothing.
ghost use Rattle.std.specs.Prelude.{ℤ, Bool, true, Option, Some, ◌≡◌, ◌≤ℤ◌};
ghost use Rattle.fixed_units.specs.Boxes.{IsUnion};
ghost use Rattle.fixed_units.specs.declared.boxes.MathBox.{MathBox};
ghost use Rattle.font_metrics.specs.Metrics.{MetricsValue};
ghost use Rattle.scripts.specs.Beside.{sub_of, sup_of, sub_sup_of, sub_x_of, sup_x_of};
ghost use Rattle.scripts.specs.declared.parts.KernFrom.{KernFrom};
ghost use Rattle.scripts.specs.Kerns.{HasNoKerns, no_corners};
ghost use Rattle.scripts.specs.Laws.{ink_gap, IsLowEnough, IsHighEnough, KeepGaps, boxes_of, StandInside, IsCentred, AccentsMeet};
ghost use Rattle.scripts.specs.Lengths.{sub_lengths_of, sup_lengths_of, pair_lengths_of};
ghost use Rattle.scripts.specs.LimitGaps.{above_of, below_of};
ghost use Rattle.scripts.specs.Limits.{under_over_of};
ghost use Rattle.scripts.specs.declared.parts.LimitCase.{LimitCase};
ghost use Rattle.scripts.specs.declared.parts.LimitCase.TheVariants.{Plain, Stretchy};

/// The ink of a subscript and of the superscript above it keeps the least gap, however the move is
/// shared between them.
pub fn the_ink_of_two_scripts_keeps_the_least_gap()
    ensures { (m : MetricsValue) (base : MathBox) (large cramped : Bool) (sub sup : MathBox)
        (from : KernFrom) (size : ℤ) →
        (pair_lengths_of m size).gap
        ≤ℤ ink_gap sub sup (sub_sup_of m base large cramped sub sup from size) }
{}

/// A subscript stands as low as each of its constants wants it, alone and under a superscript.
pub fn subscripts_stand_low_enough()
    ensures alone { (m : MetricsValue) (base : MathBox) (large : Bool) (script : MathBox)
        (from : KernFrom) (size : ℤ) →
        IsLowEnough (sub_lengths_of m size) base script (sub_of m base large script from size).sub }
    ensures both { (m : MetricsValue) (base : MathBox) (large cramped : Bool) (sub sup : MathBox)
        (from : KernFrom) (size : ℤ) →
        IsLowEnough (sub_lengths_of m size) base sub
        (sub_sup_of m base large cramped sub sup from size).sub }
{}

/// A superscript stands as high as each of its constants wants it, alone and over a subscript.
pub fn superscripts_stand_high_enough()
    ensures alone { (m : MetricsValue) (base : MathBox) (large cramped : Bool) (script : MathBox)
        (from : KernFrom) (size : ℤ) →
        IsHighEnough (sup_lengths_of m size cramped) base script
        (sup_of m base large cramped script from size).sup }
    ensures both { (m : MetricsValue) (base : MathBox) (large cramped : Bool) (sub sup : MathBox)
        (from : KernFrom) (size : ℤ) →
        IsHighEnough (sup_lengths_of m size cramped) base sup
        (sub_sup_of m base large cramped sub sup from size).sup }
{}

/// Where no glyph has a kern, scripts stand as without corners: as they stood before files had
/// kerns.
pub fn without_kerns_no_corner_counts()
    ensures sub { (m : MetricsValue) (base : MathBox) (large : Bool) (script : MathBox)
        (from : KernFrom) (size : ℤ) →
        HasNoKerns m → sub_of m base large script from size
        ≡ sub_of m base large script no_corners size }
    ensures sup { (m : MetricsValue) (base : MathBox) (large cramped : Bool) (script : MathBox)
        (from : KernFrom) (size : ℤ) →
        HasNoKerns m → sup_of m base large cramped script from size
        ≡ sup_of m base large cramped script no_corners size }
    ensures both { (m : MetricsValue) (base : MathBox) (large cramped : Bool) (sub sup : MathBox)
        (from : KernFrom) (size : ℤ) →
        HasNoKerns m → sub_sup_of m base large cramped sub sup from size
        ≡ sub_sup_of m base large cramped sub sup no_corners size }
{}

/// Without corners a script stands where the box of its base ends, but for what the base leans.
pub fn without_corners_scripts_stand_behind_their_base()
    ensures sub { (m : MetricsValue) (base : MathBox) (large : Bool) (script : MathBox) (size : ℤ) →
        (sub_of m base large script no_corners size).sub.x ≡ sub_x_of base large }
    ensures sup { (m : MetricsValue) (base : MathBox) (large cramped : Bool) (script : MathBox)
        (size : ℤ) →
        (sup_of m base large cramped script no_corners size).sup.x ≡ sup_x_of base large }
    ensures both { (m : MetricsValue) (base : MathBox) (large cramped : Bool) (sub sup : MathBox)
        (size : ℤ) →
        let scripted = sub_sup_of m base large cramped sub sup no_corners size in
        (scripted.sub.x ≡ sub_x_of base large) × (scripted.sup.x ≡ sup_x_of base large) }
{}

/// The ink of limits keeps its gaps to that of their base; that of an accent doesn't sink into it.
pub fn the_ink_of_limits_keeps_its_gaps()
    ensures { (m : MetricsValue) (base : MathBox) (under over : Option MathBox) (case : LimitCase)
        (accent accentunder : Bool) (size : ℤ) →
        KeepGaps (above_of m case accent size) (below_of m case accentunder size) base under over
        (under_over_of m base under over case accent accentunder size) }
{}

/// The box of limits reaches as far up and down as the farthest of its base and the limits.
pub fn the_box_of_limits_is_a_union()
    ensures { (m : MetricsValue) (base : MathBox) (under over : Option MathBox) (case : LimitCase)
        (accent accentunder : Bool) (size : ℤ) →
        IsUnion (boxes_of m base under over case accent accentunder size)
        (under_over_of m base under over case accent accentunder size).frame }
{}

/// A base and its limits begin and end inside their box.
pub fn limits_stand_inside()
    ensures { (m : MetricsValue) (base : MathBox) (under over : Option MathBox) (case : LimitCase)
        (accent accentunder : Bool) (size : ℤ) →
        StandInside base under over (under_over_of m base under over case accent accentunder size) }
{}

/// An underscript stands in the middle of its base, to the unit, but for that of a large operator.
pub fn underscripts_stand_in_the_middle()
    ensures plain { (m : MetricsValue) (base under : MathBox) (over : Option MathBox)
        (accent accentunder : Bool) (size : ℤ) →
        let limits = under_over_of m base (Some under) over Plain accent accentunder size in
        IsCentred base under limits.base limits.under }
    ensures stretchy { (m : MetricsValue) (base under : MathBox) (over : Option MathBox)
        (accent accentunder : Bool) (size : ℤ) →
        let limits = under_over_of m base (Some under) over Stretchy accent accentunder size in
        IsCentred base under limits.base limits.under }
{}

/// An accent stands with its own accent over that of its base.
pub fn accents_meet()
    ensures { (m : MetricsValue) (base over : MathBox) (under : Option MathBox) (accentunder : Bool)
        (size : ℤ) →
        AccentsMeet base over (under_over_of m base under (Some over) Plain true accentunder size) }
{}
