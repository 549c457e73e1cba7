ghost use Rattle.std.specs.Prelude.{◌≡◌, ◌≤◌, ◌^◌, pos, ◌*ℤ◌, ◌≤ℤ◌, IfSome};
ghost use Rattle.fixed_units.specs.Numbers.{IsWithin, rounded};
ghost use Rattle.style_scope.specs.Sizes.{IsPercent, IsScale, IsSize, IsStyle, font_size_of, in_range_of, percent_at, scale_at, scale_from};

use crate::style::Style;
use fixed_units::{Ratio, round};
use font_metrics::{ConstName, Metrics};

/// The largest font size, 1024 px.
const LARGEST: i128 = 1 << 20;

/// The font size of a style in units, where it is at most 2^20.
#[tactic(auto, unfolding(crate::specs::Sizes::font_size_of))]
pub fn font_size(style: &Style, metrics: &Metrics) -> Option<i64>
    requires { IsStyle style.now }
    ensures value { result ≡ font_size_of metrics.now style.now }
    ensures within { IfSome result IsSize }
{
    scaled(style.base, scale_between(style, metrics))
}

/// A base size times a scale, rounded to the nearest unit, where that is at most 2^20.
fn scaled(base: i64, scale: Ratio) -> Option<i64>
    requires base { pos 0 ≤ℤ base }
    requires num_low { pos 1 ≤ℤ scale.num }
    requires den_low { pos 1 ≤ℤ scale.den }
    requires den_in { IsWithin (2 ^ 95) scale.den }
    ensures value { result ≡ in_range_of (rounded (base *ℤ scale.num) scale.den) }
    ensures within { IfSome result IsSize }
{
    // Where both are the same, it is the base size, without a division.
    if scale.num == scale.den {
        return in_range(base);
    }
    // A product past 128 bits is a size far past the largest.
    let Some(num) = i128::from(base).checked_mul(scale.num) else {
        return None;
    };
    // It is rounded to more than the largest from half a unit above that on.
    let end = (2 * LARGEST + 1) * scale.den;
    if end - num <= num {
        return None;
    }
    Some(round(Ratio {
        num,
        den: scale.den,
    }))
}

/// A size, where it is at most 2^20.
#[tactic(auto, unfolding(crate::specs::Sizes::in_range_of))]
fn in_range(size: i64) -> Option<i64>
    requires { pos 0 ≤ℤ size }
    ensures value { result ≡ in_range_of size }
    ensures within { IfSome result IsSize }
{
    if i128::from(size) <= LARGEST {
        Some(size)
    } else {
        None
    }
}

/// How large a font is at a style's depth, where it is 1 at the base depth.
fn scale_between(style: &Style, metrics: &Metrics) -> Ratio
    requires { IsStyle style.now }
    ensures { IsScale (scale_at metrics.now style.now.depth)
        (scale_at metrics.now style.now.base_depth) result }
{
    let num = percent(style.depth, metrics);
    let den = percent(style.base_depth, metrics);
    scale_of(
        num,
        den,
        style.depth.saturating_sub(2),
        style.base_depth.saturating_sub(2),
    )
}

/// One percent over another, each so many levels further down. Levels that both have cancel, so
/// that the numbers stay small.
fn scale_of(num: i64, den: i64, below: u8, given: u8) -> Ratio
    requires num_in { IsPercent num }
    requires den_in { IsPercent den }
    requires below { below ≤ 13 }
    requires given { given ≤ 13 }
    ensures { IsScale (scale_from num below) (scale_from den given) result }
{
    if given <= below {
        let levels = u32::from(below - given);
        Ratio {
            num: times_power(num, 71, levels),
            den: times_power(den, 100, levels),
        }
    } else {
        let levels = u32::from(given - below);
        Ratio {
            num: times_power(num, 100, levels),
            den: times_power(den, 71, levels),
        }
    }
}

/// A percent times a power.
fn times_power(percent: i64, number: u128, levels: u32) -> i128
    requires percent_in { IsPercent percent }
    requires some { 1 ≤ number }
    requires number { number ≤ 100 }
    requires levels { levels ≤ 13 }
    ensures value { result ≡ percent *ℤ pos (number ^ levels) }
    ensures low { pos 1 ≤ℤ result }
    ensures within { IsWithin (2 ^ 95) result }
{
    i128::from(percent) * number.pow(levels) as i128
}

/// The percent of the first two levels, or of all below them.
fn percent(depth: u8, metrics: &Metrics) -> i64
    ensures value { result ≡ percent_at metrics.now depth }
    ensures within { IsPercent result }
{
    match depth {
        0 => 100,
        1 => metrics.percent(ConstName::ScriptPercentScaleDown),
        _ => metrics.percent(ConstName::ScriptScriptPercentScaleDown),
    }
}
