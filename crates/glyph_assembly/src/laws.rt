//! The laws of shaping.
//!
//! A law is proved where it is a contract, so each function here has one and computes nothing.
ghost use Rattle.std.specs.Prelude.{ℕ, ◌≤◌, ℤ, ◌≤ℤ◌, List, Option, Some, MatchOption};
ghost use Rattle.std.specs.List.{All};
ghost use Rattle.font_metrics.specs.Metrics.{MetricsValue};
ghost use Rattle.font_metrics.specs.declared.growth.Variant.{Variant as LargerGlyph};
ghost use Rattle.op_dictionary.specs.declared.operator.Axis.{Axis};
ghost use Rattle.glyph_assembly.specs.declared.sums.Sums.{Sums};
ghost use Rattle.glyph_assembly.specs.Counts.{Grows, IsEnough, IsLeastCount, IsGreatestOverlap, least_count, greatest_overlap, length_of};
ghost use Rattle.glyph_assembly.specs.Laws.{IsShort, IsFirstReaching, IsChosen};
ghost use Rattle.glyph_assembly.specs.Shaping.{first_reaching, shaped_of};

/// A valid assembly reaches its target by the least count, over all counts.
pub fn no_smaller_count_reaches()
    ensures { (sums : Sums) (target : ℤ) → Grows sums →
        IsLeastCount sums target (least_count sums target) }
{}

/// It reaches the target by the greatest overlap, over all those that the joints allow.
pub fn no_larger_overlap_reaches()
    ensures { (sums : Sums) (target : ℤ) (count widest : ℕ) →
        IsEnough sums target count → sums.overlap ≤ widest →
        IsGreatestOverlap sums target count widest
        (greatest_overlap sums target count (Some widest)) }
{}

/// So it is as long as the target at the least, whatever its joints allow.
pub fn an_assembly_reaches_its_target()
    ensures { (sums : Sums) (target : ℤ) (widest : Option ℕ) → Grows sums →
        let count = least_count sums target in
        target ≤ℤ length_of sums count (greatest_overlap sums target count widest) }
{}

/// A variant that is taken reaches the target, and those before it fall short; where none is taken
/// all fall short.
pub fn the_first_that_reaches_is_taken()
    ensures { (metrics : MetricsValue) (size target : ℤ) (variants : List LargerGlyph) →
        MatchOption (first_reaching metrics size target variants)
        (All (IsShort metrics size target) variants)
        (IsFirstReaching metrics size target variants) }
{}

/// What a glyph is made into reaches the target, unless neither the glyph, nor a variant, nor an
/// assembly does; and an assembly is made only where no glyph does.
pub fn what_is_taken_reaches_where_anything_does()
    ensures { (metrics : MetricsValue) (place : ℕ) (axis : Axis) (target size : ℤ) →
        IsChosen metrics place axis target size (shaped_of metrics place axis target size).shape }
{}
