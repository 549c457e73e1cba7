ghost use Rattle.std.specs.Prelude.{◌≡◌, ◌^◌, ◌*◌, pos, ◌≤ℤ◌};
ghost use Rattle.fixed_units.specs.Numbers.{IsWithin};
ghost use Rattle.css_lengths.specs.Lengths.{size_of, millionths_of, resolved, IsSize};

use fixed_units::{Ratio, round};

/// A unit of lengths or percentages (CSS Values and Units 4, 6, "Distance Units").
#[derive(Clone, Copy, Debug, PartialEq, Eq)]
pub enum Unit {
    /// The font size.
    Em,
    /// The x-height of the font.
    Ex,
    /// 1024 units.
    Px,
    /// A 72nd of an inch.
    Pt,
    /// A sixth of an inch.
    Pc,
    /// 96 px.
    Inch,
    /// An inch has 2.54 of them.
    Cm,
    /// A tenth of a centimetre.
    Mm,
    /// A quarter of a millimetre.
    Quarter,
    /// A hundredth of a length that the attribute names.
    Percent,
}

/// A length as it is written: a number in millionths, and its unit.
#[derive(Clone, Copy, Debug, PartialEq, Eq)]
pub struct LengthText {
    pub millionths: i64,
    pub unit: Unit,
}

/// A length in units of 1/1024 px, rounded to the nearest, of two that are equally near to the
/// larger one.
///
/// `em` is the font size, `ex` its x-height, and `percent_of` the length of which percentages are,
/// all in units.
#[tactic(auto, unfolding(crate::specs::Lengths::resolved))]
pub fn resolve(length: LengthText, em: i64, ex: i64, percent_of: i64) -> i64
    requires length_in { IsWithin (10 ^ 15) length.millionths }
    requires em_low { pos 0 ≤ℤ em }
    requires em_high { em ≤ℤ pos (2 ^ 20) }
    requires ex_low { pos 0 ≤ℤ ex }
    requires ex_high { ex ≤ℤ pos (2 ^ 32) }
    requires percent_of_in { IsWithin (2 ^ 34) percent_of }
    ensures value { result ≡ resolved length em ex percent_of }
    ensures within { IsWithin (10 ^ 9 * 2 ^ 32) result }
{
    millionths_of(length.millionths, size_of(length.unit, em, ex, percent_of))
}

/// A number of millionths of a size, rounded to the nearest unit.
fn millionths_of(number: i64, size: Ratio) -> i64
    requires number_in { IsWithin (10 ^ 15) number }
    requires size_in { IsSize size }
    ensures value { result ≡ millionths_of number size }
    ensures within { IsWithin (10 ^ 9 * 2 ^ 32) result }
{
    round(Ratio {
        num: i128::from(number) * size.num,
        den: 1_000_000 * size.den,
    })
}

/// An inch in units.
const INCH: i128 = 96 * 1024;

/// The size of a unit of lengths, in units of 1/1024 px.
#[tactic(auto, unfolding(crate::specs::Lengths::size_of))]
fn size_of(unit: Unit, em: i64, ex: i64, percent_of: i64) -> Ratio
    requires em_low { pos 0 ≤ℤ em }
    requires em_high { em ≤ℤ pos (2 ^ 20) }
    requires ex_low { pos 0 ≤ℤ ex }
    requires ex_high { ex ≤ℤ pos (2 ^ 32) }
    requires percent_of_in { IsWithin (2 ^ 34) percent_of }
    ensures value { result ≡ size_of unit em ex percent_of }
    ensures small { IsSize result }
{
    let (num, den) = match unit {
        Unit::Em => (i128::from(em), 1),
        Unit::Ex => (i128::from(ex), 1),
        Unit::Px => (1024, 1),
        Unit::Pt => (INCH, 72),
        Unit::Pc => (INCH, 6),
        Unit::Inch => (INCH, 1),
        Unit::Cm => (100 * INCH, 254),
        Unit::Mm => (10 * INCH, 254),
        Unit::Quarter => (100 * INCH, 40 * 254),
        Unit::Percent => (i128::from(percent_of), 100),
    };
    Ratio { num, den }
}
