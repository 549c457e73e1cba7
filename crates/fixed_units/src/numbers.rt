ghost use Rattle.std.specs.Prelude.{◌≡◌, true, ◌^◌, pos, ◌+ℤ◌, ◌*ℤ◌, ◌≤ℤ◌, ◌<ℤ◌};
ghost use Rattle.fixed_units.specs.Numbers.{IsWithin, IsRound, rounded, halved};

/// A rational number before it is rounded: `num / den`, with `den` above 0.
#[derive(Clone, Copy, Debug, PartialEq, Eq)]
pub struct Ratio {
    pub num: i128,
    pub den: i128,
}

/// The whole number nearest to a ratio; of two that are equally near, the larger one.
pub fn round(value: Ratio) -> i64
    requires positive { pos 0 <ℤ value.den }
    requires num_in { IsWithin (2 ^ 126) value.num }
    requires result_in { IsWithin (2 ^ 62) (rounded value.num value.den) }
    ensures value { result ≡ rounded value.num value.den }
    ensures nearest { IsRound value.num value.den result }
{
    if is_short(value.num) && is_short(value.den) {
        round_short(value.num as i64, value.den as i64)
    } else {
        round_long(value)
    }
}

/// The largest number that is short: such numbers are divided in one instruction.
const SHORT: i128 = 1 << 62;

/// Is a number at most that far from 0?
fn is_short(n: i128) -> bool
    ensures { result ≡ true → IsWithin (2 ^ 62) n }
{
    -SHORT <= n && n <= SHORT
}

/// The same of two short numbers.
fn round_short(num: i64, den: i64) -> i64
    requires positive { pos 0 <ℤ den }
    requires den_in { den ≤ℤ pos (2 ^ 62) }
    requires result_in { IsWithin (2 ^ 62) (rounded num den) }
    ensures { result ≡ rounded num den }
{
    let down = num.div_euclid(den);
    let rest = num.rem_euclid(den);
    if rest < den - rest { down } else { down + 1 }
}

/// The same of any two numbers.
fn round_long(value: Ratio) -> i64
    requires positive { pos 0 <ℤ value.den }
    requires num_in { IsWithin (2 ^ 126) value.num }
    requires result_in { IsWithin (2 ^ 62) (rounded value.num value.den) }
    ensures { result ≡ rounded value.num value.den }
{
    let down = value.num.div_euclid(value.den);
    let rest = value.num.rem_euclid(value.den);
    // Twice the rest is not compared with the divisor, since it may not fit.
    if rest < value.den - rest {
        down as i64
    } else {
        (down + 1) as i64
    }
}

/// Half of a number, rounded down.
#[tactic(auto, unfolding(crate::specs::Numbers::halved))]
pub fn half(n: i64) -> i64
    ensures value { result ≡ halved n }
    ensures low { (pos 2 *ℤ result) ≤ℤ n }
    ensures high { n ≤ℤ (pos 2 *ℤ result +ℤ pos 1) }
{
    n.div_euclid(2)
}
