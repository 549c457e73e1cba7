ghost use Rattle.std.specs.Prelude.{◌≡◌, ◌^◌, length, IfSome};
ghost use Rattle.fixed_units.specs.Boxes.{IsStored};
ghost use Rattle.fixed_units.specs.Numbers.{IsWithin};
ghost use Rattle.scripts.specs.Kerns.{AreInked, IsInked, corner_kern, kerns_meeting, sub_kern_of, sup_kern_of};

use crate::parts::{Inked, KernFrom};
use fixed_units::MathBox;
use font_metrics::Metrics;

/// How far a superscript is moved that is raised so far: the larger of what the corners of base and
/// script give at the height of the script's bottom and at that of the base's top.
#[tactic(auto, using(fixed_units::proofs::Signed::from_bits), unfolding(crate::specs::Kerns::sup_kern_of))]
pub fn sup_kern(from: &KernFrom, base: &MathBox, sup: &MathBox, up: i64, metrics: &Metrics) -> i64
    requires from { AreInked (length metrics.now.glyphs) from.now }
    requires base_fits { IsStored base.now }
    requires sup_fits { IsStored sup.now }
    requires up_in { IsWithin (2 ^ 40) up }
    ensures value { result ≡ sup_kern_of metrics.now from.now base.now sup.now up }
    ensures within { IsWithin (2 ^ 33) result }
{
    let at_sup = kerns_meeting(from.base_sup, from.sup, up, up - sup.ink_descent, metrics);
    let at_base = kerns_meeting(from.base_sup, from.sup, up, base.ink_ascent, metrics);
    at_sup.max(at_base)
}

/// How far a subscript is moved that is lowered so far: the larger of what the corners of base and
/// script give at the height of the script's top and at that of the base's bottom.
#[tactic(auto, using(fixed_units::proofs::Signed::from_bits), unfolding(crate::specs::Kerns::sub_kern_of))]
pub fn sub_kern(from: &KernFrom, base: &MathBox, sub: &MathBox, down: i64, metrics: &Metrics) -> i64
    requires from { AreInked (length metrics.now.glyphs) from.now }
    requires base_fits { IsStored base.now }
    requires sub_fits { IsStored sub.now }
    requires down_in { IsWithin (2 ^ 40) down }
    ensures value { result ≡ sub_kern_of metrics.now from.now base.now sub.now down }
    ensures within { IsWithin (2 ^ 33) result }
{
    let raised = -down;
    let at_sub = kerns_meeting(
        from.base_sub,
        from.sub,
        raised,
        sub.ink_ascent - down,
        metrics,
    );
    let at_base = kerns_meeting(from.base_sub, from.sub, raised, -base.ink_descent, metrics);
    at_sub.max(at_base)
}

/// What the corners of a base and of a script that is raised so far give at a height.
fn kerns_meeting(
    base: Option<Inked>,
    script: Option<Inked>,
    raised: i64,
    height: i64,
    metrics: &Metrics,
) -> i64
    requires base { IfSome base (IsInked (length metrics.now.glyphs)) }
    requires script { IfSome script (IsInked (length metrics.now.glyphs)) }
    requires raised_in { IsWithin (2 ^ 40) raised }
    requires height_in { IsWithin (2 ^ 41) height }
    ensures value { result ≡ kerns_meeting metrics.now base script raised height }
    ensures within { IsWithin (2 ^ 33) result }
{
    corner_kern(base, height, metrics) + corner_kern(script, height - raised, metrics)
}

fn corner_kern(inked: Option<Inked>, height: i64, metrics: &Metrics) -> i64
    requires { IfSome inked (IsInked (length metrics.now.glyphs)) }
    ensures value { result ≡ corner_kern metrics.now inked height }
    ensures within { IsWithin (2 ^ 32) result }
{
    match inked {
        None => 0,
        Some(inked) => metrics.kern(inked.glyph, inked.corner, height, inked.size),
    }
}
