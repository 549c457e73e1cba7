//! `round`: a ratio, rounded to the nearest whole number.
ghost use Rattle.std.specs.Prelude.{◌^◌, pos, ◌<ℤ◌};
ghost use Rattle.fixed_units.specs.Numbers.{IsWithin};

use case_format::{Case, Fault, Fields, written};
use fixed_units::{Ratio, round};
use std::fmt::Write;

/// The largest number of a ratio, below or above.
const MOST: i64 = 4_611_686_018_427_387_904;

/// Adds the answer of a case of `round`.
pub fn answer(case: Case, words: &mut String) -> Result<(), Fault> {
    let fields = Fields::of_value(case.value, &["num", "den"])?;
    let num = fields.number("num")?;
    let den = fields.number("den")?;
    if den <= 0 {
        return Err(Fault::out_of_range("den"));
    }
    if num < -MOST || MOST < num {
        return Err(Fault::out_of_range("num"));
    }
    let nearest = nearest(i128::from(num), i128::from(den));
    written(write!(words, "{nearest}"))
}

// What is divided by one or more grows no larger, so that the result fits.
fn nearest(num: i128, den: i128) -> i64
    requires positive { pos 0 <ℤ den }
    requires num_in { IsWithin (2 ^ 62) num }
{
    round(Ratio { num, den })
}
