ghost use Rattle.std.specs.Prelude.{◌≡◌, ◌^◌, pos, ◌≤ℤ◌, IfSome};
ghost use Rattle.fixed_units.specs.Boxes.{IsStored};
ghost use Rattle.fixed_units.specs.Numbers.{IsWithin};
ghost use Rattle.scripts.specs.Limits.{lean_of, middle_of, leaning_of, under_x_of, over_x_of, under_limit_of, over_limit_of, placed_if, whole_of, attached_of, spot_in_of, limits_of, under_over_of, IsPlacedWithin, IsExtentWithin};

use crate::parts::{LimitCase, Limits, Spot};
use crate::spacing::Gap;
use fixed_units::{MathBox, half, join, raise};
use font_metrics::Metrics;

/// A base with an underscript, an overscript or both (MathML Core 3.4.2).
///
/// Lengths are in units of 1/1024 px, and `size` is the font size of the element. `accent` and
/// `accentunder` say that the overscript and the underscript are accents.
pub fn under_over(
    base: &MathBox,
    under: Option<MathBox>,
    over: Option<MathBox>,
    case: LimitCase,
    accent: bool,
    accentunder: bool,
    size: i64,
    metrics: &Metrics,
) -> Limits
    requires base_fits { IsStored base.now }
    requires under_fits { IfSome under IsStored }
    requires over_fits { IfSome over IsStored }
    requires size_low { pos 0 ≤ℤ size }
    requires size_high { size ≤ℤ pos (2 ^ 20) }
    ensures { result ≡ under_over_of metrics.now base.now under over case accent accentunder size }
{
    let under = under_if(base, under, case, accentunder, size, metrics);
    let over = over_if(base, over, case, accent, size, metrics);
    let extent = attached(attached(whole(base), under), over);
    limits(base, extent, under, over)
}

/// A limit before the least start is known: where it begins, how far its baseline lies above that
/// of the base, and its box as it counts there.
#[derive(Clone, Copy, Debug)]
pub struct Placed {
    pub x: i64,
    pub height: i64,
    pub frame: MathBox,
}

/// What some parts take: from where to where, and what they reach up and down.
#[derive(Clone, Copy, Debug)]
pub struct Extent {
    pub start: i64,
    pub end: i64,
    pub union: MathBox,
}

/// The underscript, if there is one.
fn under_if(
    base: &MathBox,
    under: Option<MathBox>,
    case: LimitCase,
    accent: bool,
    size: i64,
    metrics: &Metrics,
) -> Option<Placed>
    requires base_fits { IsStored base.now }
    requires under_fits { IfSome under IsStored }
    requires size_low { pos 0 ≤ℤ size }
    requires size_high { size ≤ℤ pos (2 ^ 20) }
    ensures value { result ≡ placed_if
        (λ part. under_limit_of metrics.now base.now part case accent size) under }
    ensures within { IfSome result (IsPlacedWithin (2 ^ 36)) }
{
    match under {
        Some(part) => Some(under_limit(base, &part, case, accent, size, metrics)),
        None => None,
    }
}

/// The overscript, if there is one.
fn over_if(
    base: &MathBox,
    over: Option<MathBox>,
    case: LimitCase,
    accent: bool,
    size: i64,
    metrics: &Metrics,
) -> Option<Placed>
    requires base_fits { IsStored base.now }
    requires over_fits { IfSome over IsStored }
    requires size_low { pos 0 ≤ℤ size }
    requires size_high { size ≤ℤ pos (2 ^ 20) }
    ensures value { result ≡ placed_if
        (λ part. over_limit_of metrics.now base.now part case accent size) over }
    ensures within { IfSome result (IsPlacedWithin (2 ^ 36)) }
{
    match over {
        Some(part) => Some(over_limit(base, &part, case, accent, size, metrics)),
        None => None,
    }
}

/// An underscript below a base.
fn under_limit(
    base: &MathBox,
    under: &MathBox,
    case: LimitCase,
    accent: bool,
    size: i64,
    metrics: &Metrics,
) -> Placed
    requires base_fits { IsStored base.now }
    requires under_fits { IsStored under.now }
    requires size_low { pos 0 ≤ℤ size }
    requires size_high { size ≤ℤ pos (2 ^ 20) }
    ensures value { result ≡ under_limit_of metrics.now base.now under.now case accent size }
    ensures within { IsPlacedWithin (2 ^ 36) result }
{
    let gap = Gap::below(case, accent, size, metrics);
    let depth = gap.distance(base.ink_descent, under.ink_ascent);
    let part = raise(under, -depth);
    Placed {
        x: under_x(base, under, case),
        height: -depth,
        frame: MathBox {
            descent: part.descent + gap.extra(),
            ..part
        },
    }
}

/// An overscript above a base.
fn over_limit(
    base: &MathBox,
    over: &MathBox,
    case: LimitCase,
    accent: bool,
    size: i64,
    metrics: &Metrics,
) -> Placed
    requires base_fits { IsStored base.now }
    requires over_fits { IsStored over.now }
    requires size_low { pos 0 ≤ℤ size }
    requires size_high { size ≤ℤ pos (2 ^ 20) }
    ensures value { result ≡ over_limit_of metrics.now base.now over.now case accent size }
    ensures within { IsPlacedWithin (2 ^ 36) result }
{
    let gap = Gap::above(case, accent, size, metrics);
    let height = gap.distance(base.ink_ascent, over.ink_descent);
    let part = raise(over, height);
    Placed {
        x: over_x(base, over, case, accent),
        height,
        frame: MathBox {
            ascent: part.ascent + gap.extra(),
            ..part
        },
    }
}

/// Where an overscript begins: its accent stands over that of the base, or it stands in the middle.
#[tactic(auto, using(fixed_units::proofs::Signed::from_bits), unfolding(crate::specs::Limits::over_x_of))]
fn over_x(base: &MathBox, over: &MathBox, case: LimitCase, accent: bool) -> i64
    requires base_fits { IsStored base.now }
    requires over_fits { IsStored over.now }
    ensures value { result ≡ over_x_of base.now over.now case accent }
    ensures within { IsWithin (2 ^ 32) result }
{
    match case {
        LimitCase::Plain => {
            if accent {
                base.accent - over.accent
            } else {
                leaning(base, over, case)
            }
        }
        LimitCase::Large => leaning(base, over, case),
        LimitCase::Stretchy => leaning(base, over, case),
    }
}

/// Where an overscript begins that follows the lean of a large operator.
#[tactic(auto, using(fixed_units::proofs::Signed::from_bits), unfolding(crate::specs::Limits::leaning_of))]
fn leaning(base: &MathBox, over: &MathBox, case: LimitCase) -> i64
    requires base_fits { IsStored base.now }
    requires over_fits { IsStored over.now }
    ensures value { result ≡ leaning_of base.now over.now case }
    ensures within { IsWithin (2 ^ 32) result }
{
    middle(base, over) + half(lean(base, case))
}

/// Where an underscript begins that follows it.
#[tactic(auto, using(fixed_units::proofs::Signed::from_bits), unfolding(crate::specs::Limits::under_x_of))]
fn under_x(base: &MathBox, under: &MathBox, case: LimitCase) -> i64
    requires base_fits { IsStored base.now }
    requires under_fits { IsStored under.now }
    ensures value { result ≡ under_x_of base.now under.now case }
    ensures within { IsWithin (2 ^ 32) result }
{
    middle(base, under) - half(lean(base, case))
}

/// Where a part begins that stands in the middle of a base.
#[tactic(auto, using(fixed_units::proofs::Signed::from_bits), unfolding(crate::specs::Limits::middle_of))]
fn middle(base: &MathBox, part: &MathBox) -> i64
    requires base_fits { IsStored base.now }
    requires part_fits { IsStored part.now }
    ensures value { result ≡ middle_of base.now part.now }
    ensures within { IsWithin (2 ^ 31) result }
{
    half(base.width - part.width)
}

/// How far the limits of a base stand apart along the line: a large operator leans.
#[tactic(auto, using(fixed_units::proofs::Signed::from_bits), unfolding(crate::specs::Limits::lean_of))]
fn lean(base: &MathBox, case: LimitCase) -> i64
    requires { IsStored base.now }
    ensures value { result ≡ lean_of base.now case }
    ensures within { IsWithin (2 ^ 30) result }
{
    match case {
        LimitCase::Large => base.italic,
        LimitCase::Stretchy | LimitCase::Plain => 0,
    }
}

/// What a base takes alone.
#[tactic(auto, using(fixed_units::proofs::Signed::from_bits), unfolding(crate::specs::Limits::whole_of))]
fn whole(base: &MathBox) -> Extent
    requires { IsStored base.now }
    ensures value { result ≡ whole_of base.now }
    ensures within { IsExtentWithin (2 ^ 37) result }
{
    Extent {
        start: 0,
        end: base.width,
        union: *base,
    }
}

/// What parts take with one more, if there is one.
#[tactic(auto, using(fixed_units::proofs::Signed::from_bits), unfolding(crate::specs::Limits::attached_of))]
fn attached(extent: Extent, part: Option<Placed>) -> Extent
    requires extent_in { IsExtentWithin (2 ^ 37) extent }
    requires part_in { IfSome part (IsPlacedWithin (2 ^ 36)) }
    ensures value { result ≡ attached_of extent part }
    ensures within { IsExtentWithin (2 ^ 37) result }
{
    match part {
        Some(part) => Extent {
            start: extent.start.min(part.x),
            end: extent.end.max(part.x + part.frame.width),
            union: join(&extent.union, &part.frame),
        },
        None => extent,
    }
}

/// The parts moved right, so that the first one begins at the start.
#[tactic(auto, using(fixed_units::proofs::Signed::from_bits), unfolding(crate::specs::Limits::limits_of))]
fn limits(base: &MathBox, extent: Extent, under: Option<Placed>, over: Option<Placed>) -> Limits
    requires base_fits { IsStored base.now }
    requires extent_in { IsExtentWithin (2 ^ 37) extent }
    requires under_in { IfSome under (IsPlacedWithin (2 ^ 36)) }
    requires over_in { IfSome over (IsPlacedWithin (2 ^ 36)) }
    ensures { result ≡ limits_of base.now extent under over }
{
    Limits {
        frame: MathBox {
            width: extent.end - extent.start,
            italic: 0,
            accent: base.accent - extent.start,
            ..extent.union
        },
        base: Spot {
            x: -extent.start,
            y: 0,
        },
        under: spot_in(extent.start, under),
        over: spot_in(extent.start, over),
    }
}

/// Where a part stands that is moved right by what begins before the base; (0, 0) without one.
#[tactic(auto, using(fixed_units::proofs::Signed::from_bits), unfolding(crate::specs::Limits::spot_in_of))]
fn spot_in(start: i64, part: Option<Placed>) -> Spot
    requires start_in { IsWithin (2 ^ 37) start }
    requires part_in { IfSome part (IsPlacedWithin (2 ^ 36)) }
    ensures { result ≡ spot_in_of start part }
{
    match part {
        Some(part) => Spot {
            x: part.x - start,
            y: -part.height,
        },
        None => Spot { x: 0, y: 0 },
    }
}
