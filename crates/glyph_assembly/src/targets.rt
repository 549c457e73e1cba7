ghost use Rattle.std.specs.Prelude.{◌≡◌, ◌*◌, ◌^◌, pos, ◌*ℤ◌, ◌<ℤ◌};
ghost use Rattle.fixed_units.specs.Numbers.{IsWithin, rounded};
ghost use Rattle.glyph_assembly.specs.Targets.{IsStretch, AreSizes, IsInReach, target_of, covering, evened, centred, resized, bounded, width_at_most, total};

use fixed_units::{Pull, Ratio, half, round};
use op_dictionary::Properties;

/// What a stretched operator is to cover, in units of 1/1024 px: an ascent and a descent, or a
/// width and 0 (MathML Core 3.2.4.3). `least` and `most` are its `minsize` and `maxsize`; a
/// symmetric one reaches equally far above and below the axis, whose height is `axis_height`.
pub fn target(
    pull: Pull,
    properties: &Properties,
    least: i64,
    most: Option<i64>,
    axis_height: i64,
) -> (i64, i64)
    requires pull { IsStretch pull }
    requires sizes { AreSizes least most }
    requires axis_in { IsWithin (2 ^ 32) axis_height }
    ensures value { result ≡ target_of pull properties.now.symmetric least most axis_height }
    ensures within { IsInReach result }
{
    match pull {
        Pull::Free => (0, 0),
        Pull::Block(ascent, descent) => {
            let span = covering((ascent, descent), properties.symmetric, axis_height);
            bounded(span, least, most, axis_height)
        }
        Pull::Inline(width) => (least.max(width_at_most(width, most)), 0),
    }
}

/// The width, or the largest that is allowed.
fn width_at_most(width: i64, most: Option<i64>) -> i64
    ensures { result ≡ width_at_most width most }
{
    match most {
        Some(most) => most.min(width),
        None => width,
    }
}

/// What is to be covered, by a symmetric operator equally far above and below the axis.
fn covering(span: (i64, i64), symmetric: bool, axis: i64) -> (i64, i64)
    requires ascent_in { IsWithin (2 ^ 30) span.0 }
    requires descent_in { IsWithin (2 ^ 30) span.1 }
    requires axis_in { IsWithin (2 ^ 32) axis }
    ensures { result ≡ covering span symmetric axis }
{
    if symmetric { evened(span, axis) } else { span }
}

/// As far above the axis as below it, so that a fence stays balanced about a fraction's rule.
fn evened(span: (i64, i64), axis: i64) -> (i64, i64)
    requires ascent_in { IsWithin (2 ^ 30) span.0 }
    requires descent_in { IsWithin (2 ^ 30) span.1 }
    requires axis_in { IsWithin (2 ^ 32) axis }
    ensures { result ≡ evened span axis }
{
    let reach = (span.0 - axis).max(span.1 + axis);
    (reach + axis, reach - axis)
}

/// No smaller than the least size and no larger than the largest.
fn bounded(span: (i64, i64), least: i64, most: Option<i64>, axis: i64) -> (i64, i64)
    requires ascent_in { IsWithin (9 * 2 ^ 30) span.0 }
    requires descent_in { IsWithin (9 * 2 ^ 30) span.1 }
    requires sizes { AreSizes least most }
    requires axis_in { IsWithin (2 ^ 32) axis }
    ensures { result ≡ bounded span least most axis }
{
    let total = span.0 + span.1;
    if total <= 0 {
        return centred(least, axis);
    }
    if total < least {
        return resized(span, least, axis);
    }
    match most {
        Some(most) if most < total => resized(span, most, axis),
        _ => span,
    }
}

/// Where there is nothing to cover: the size, with its middle on the axis.
fn centred(size: i64, axis: i64) -> (i64, i64)
    requires size_in { IsWithin (2 ^ 28) size }
    requires axis_in { IsWithin (2 ^ 32) axis }
    ensures { result ≡ centred size axis }
{
    let ascent = half(size) + axis;
    (ascent, size - ascent)
}

/// At another size: the same share of it lies above the axis as before.
fn resized(span: (i64, i64), size: i64, axis: i64) -> (i64, i64)
    requires ascent_in { IsWithin (9 * 2 ^ 30) span.0 }
    requires descent_in { IsWithin (9 * 2 ^ 30) span.1 }
    requires total { pos 0 <ℤ (total span) }
    requires size_in { IsWithin (2 ^ 28) size }
    requires axis_in { IsWithin (2 ^ 32) axis }
    ensures { result ≡ resized span size axis }
{
    let above = share(span.0 - axis, size, span.0 + span.1);
    let ascent = (above + axis).max(0);
    (ascent, size - ascent)
}

/// The share of a size that a part has of a total.
fn share(part: i64, size: i64, total: i64) -> i64
    requires part_in { IsWithin (13 * 2 ^ 30) part }
    requires size_in { IsWithin (2 ^ 28) size }
    requires total { pos 0 <ℤ total }
    requires total_in { IsWithin (2 ^ 36) total }
    ensures { result ≡ rounded (part *ℤ size) total }
{
    round(Ratio {
        num: i128::from(part * size),
        den: i128::from(total),
    })
}
