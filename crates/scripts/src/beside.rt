ghost use Rattle.std.specs.Prelude.{◌≡◌, ◌^◌, pos, ◌+ℤ◌, ◌≤ℤ◌, length};
ghost use Rattle.fixed_units.specs.Boxes.{IsStored};
ghost use Rattle.fixed_units.specs.Numbers.{IsWithin};
ghost use Rattle.scripts.specs.Kerns.{AreInked, sub_kern_of, sup_kern_of};
ghost use Rattle.scripts.specs.Beside.{sub_x_of, sup_x_of, ending_at_of, sub_of, sup_of, sub_sup_of};

use crate::kerns::{sub_kern, sup_kern};
use crate::lengths::{SubLengths, SupLengths};
use crate::parts::{KernFrom, Scripted, Spot};
use crate::shifts::{pair_shifts, sub_shift, sup_shift};
use fixed_units::{MathBox, half, join, raise};
use font_metrics::{ConstName, Metrics};

/// A base with a subscript (MathML Core 3.4.1.2, "Base with subscript").
///
/// Lengths are in units of 1/1024 px, `size` is the font size of the element, and `large` says that
/// the base is a large operator; `from` has the corners whose kerns move the script.
pub fn sub(
    base: &MathBox,
    large: bool,
    script: &MathBox,
    from: &KernFrom,
    size: i64,
    metrics: &Metrics,
) -> Scripted
    requires base_fits { IsStored base.now }
    requires script_fits { IsStored script.now }
    requires from { AreInked (length metrics.now.glyphs) from.now }
    requires size_low { pos 0 ≤ℤ size }
    requires size_high { size ≤ℤ pos (2 ^ 20) }
    ensures { result ≡ sub_of metrics.now base.now large script.now from.now size }
{
    let down = sub_shift(&SubLengths::at(metrics, size), base, script);
    let x = sub_start(base, large, script, down, from, metrics);
    let parts = join(base, &raise(script, -down));
    Scripted {
        frame: ending_at(&parts, x + script.width, size, metrics),
        sub: Spot { x, y: down },
        sup: ORIGIN,
    }
}

/// A base with a superscript (MathML Core 3.4.1.3, "Base with superscript"). `cramped` says that
/// the style of the element is.
pub fn sup(
    base: &MathBox,
    large: bool,
    cramped: bool,
    script: &MathBox,
    from: &KernFrom,
    size: i64,
    metrics: &Metrics,
) -> Scripted
    requires base_fits { IsStored base.now }
    requires script_fits { IsStored script.now }
    requires from { AreInked (length metrics.now.glyphs) from.now }
    requires size_low { pos 0 ≤ℤ size }
    requires size_high { size ≤ℤ pos (2 ^ 20) }
    ensures { result ≡ sup_of metrics.now base.now large cramped script.now from.now size }
{
    let up = sup_shift(&SupLengths::at(metrics, size, cramped), base, script);
    let x = sup_start(base, large, script, up, from, metrics);
    let parts = join(base, &raise(script, up));
    Scripted {
        frame: ending_at(&parts, x + script.width, size, metrics),
        sub: ORIGIN,
        sup: Spot { x, y: -up },
    }
}

/// A base with a subscript and a superscript (MathML Core 3.4.1.4).
pub fn sub_sup(
    base: &MathBox,
    large: bool,
    cramped: bool,
    sub: &MathBox,
    sup: &MathBox,
    from: &KernFrom,
    size: i64,
    metrics: &Metrics,
) -> Scripted
    requires base_fits { IsStored base.now }
    requires sub_fits { IsStored sub.now }
    requires sup_fits { IsStored sup.now }
    requires from { AreInked (length metrics.now.glyphs) from.now }
    requires size_low { pos 0 ≤ℤ size }
    requires size_high { size ≤ℤ pos (2 ^ 20) }
    ensures { result ≡ sub_sup_of metrics.now base.now large cramped sub.now sup.now from.now size }
{
    let shifts = pair_shifts(base, cramped, sub, sup, size, metrics);
    let below = sub_start(base, large, sub, shifts.down, from, metrics);
    let above = sup_start(base, large, sup, shifts.up, from, metrics);
    let parts = join(
        &join(base, &raise(sub, -shifts.down)),
        &raise(sup, shifts.up),
    );
    let end = (below + sub.width).max(above + sup.width);
    Scripted {
        frame: ending_at(&parts, end, size, metrics),
        sub: Spot {
            x: below,
            y: shifts.down,
        },
        sup: Spot {
            x: above,
            y: -shifts.up,
        },
    }
}

/// The place of a script that isn't there.
const ORIGIN: Spot = Spot { x: 0, y: 0 };

/// Where a subscript begins that is lowered so far, with the kerns of its corner.
fn sub_start(
    base: &MathBox,
    large: bool,
    sub: &MathBox,
    down: i64,
    from: &KernFrom,
    metrics: &Metrics,
) -> i64
    requires base_fits { IsStored base.now }
    requires sub_fits { IsStored sub.now }
    requires down_in { IsWithin (2 ^ 40) down }
    requires from { AreInked (length metrics.now.glyphs) from.now }
    ensures value { result ≡ sub_x_of base.now large
        +ℤ sub_kern_of metrics.now from.now base.now sub.now down }
    ensures within { IsWithin (2 ^ 34) result }
{
    sub_x(base, large) + sub_kern(from, base, sub, down, metrics)
}

/// Where a superscript begins that is raised so far, with the kerns of its corner.
fn sup_start(
    base: &MathBox,
    large: bool,
    sup: &MathBox,
    up: i64,
    from: &KernFrom,
    metrics: &Metrics,
) -> i64
    requires base_fits { IsStored base.now }
    requires sup_fits { IsStored sup.now }
    requires up_in { IsWithin (2 ^ 40) up }
    requires from { AreInked (length metrics.now.glyphs) from.now }
    ensures value { result ≡ sup_x_of base.now large
        +ℤ sup_kern_of metrics.now from.now base.now sup.now up }
    ensures within { IsWithin (2 ^ 34) result }
{
    sup_x(base, large) + sup_kern(from, base, sup, up, metrics)
}

/// Where a subscript begins without kerns: behind the base, or under the lean of a large operator.
#[tactic(auto, using(fixed_units::proofs::Signed::from_bits), unfolding(crate::specs::Beside::sub_x_of))]
fn sub_x(base: &MathBox, large: bool) -> i64
    requires { IsStored base.now }
    ensures value { result ≡ sub_x_of base.now large }
    ensures within { IsWithin (2 ^ 31) result }
{
    if large {
        base.width - base.italic
    } else {
        base.width
    }
}

/// Where a superscript begins without kerns: behind the base and what it leans, which the width of
/// a large operator holds already.
#[tactic(auto, using(fixed_units::proofs::Signed::from_bits), unfolding(crate::specs::Beside::sup_x_of))]
fn sup_x(base: &MathBox, large: bool) -> i64
    requires { IsStored base.now }
    ensures value { result ≡ sup_x_of base.now large }
    ensures within { IsWithin (2 ^ 31) result }
{
    if large {
        base.width
    } else {
        base.width + base.italic
    }
}

/// The box of parts of which the last ends there, with the space after scripts.
fn ending_at(parts: &MathBox, end: i64, size: i64, metrics: &Metrics) -> MathBox
    requires end_in { IsWithin (2 ^ 36) end }
    requires size_low { pos 0 ≤ℤ size }
    requires size_high { size ≤ℤ pos (2 ^ 20) }
    ensures { result ≡ ending_at_of metrics.now parts.now end size }
{
    let width = end + metrics.constant(ConstName::SpaceAfterScript, size);
    MathBox {
        width,
        ascent: parts.ascent,
        descent: parts.descent,
        ink_ascent: parts.ink_ascent,
        ink_descent: parts.ink_descent,
        italic: 0,
        accent: half(width),
    }
}
