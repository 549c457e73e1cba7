ghost use Rattle.std.specs.Prelude.{◌≡◌, ◌^◌, pos, ◌≤ℤ◌};
ghost use Rattle.fixed_units.specs.Boxes.{IsStored};
ghost use Rattle.fixed_units.specs.Numbers.{IsWithin};
ghost use Rattle.scripts.specs.Lengths.{AreSubLengthsWithin, AreSupLengthsWithin, ArePairLengthsWithin};
ghost use Rattle.scripts.specs.Shifts.{sub_shift_of, sup_shift_of, moved_apart_of, pair_shifts_of, AreShiftsWithin};

use crate::lengths::{PairLengths, SubLengths, SupLengths};
use crate::parts::Shifts;
use fixed_units::MathBox;
use font_metrics::Metrics;

/// How far a subscript is moved down (MathML Core 3.4.1.2): the usual shift, or more, so that its
/// ink reaches not too far up, and its baseline lies far enough below the ink of the base.
pub fn sub_shift(font: &SubLengths, base: &MathBox, sub: &MathBox) -> i64
    requires font_in { AreSubLengthsWithin (2 ^ 32) font.now }
    requires base_fits { IsStored base.now }
    requires sub_fits { IsStored sub.now }
    ensures value { result ≡ sub_shift_of font.now base.now sub.now }
    ensures within { IsWithin (2 ^ 34) result }
{
    font.shift
        .max(sub.ink_ascent - font.top_max)
        .max(font.drop_min + base.ink_descent)
}

/// How far a superscript is moved up (MathML Core 3.4.1.3): the usual shift, or more, so that its
/// ink reaches not too far down, and its baseline lies high enough up the ink of the base.
pub fn sup_shift(font: &SupLengths, base: &MathBox, sup: &MathBox) -> i64
    requires font_in { AreSupLengthsWithin (2 ^ 32) font.now }
    requires base_fits { IsStored base.now }
    requires sup_fits { IsStored sup.now }
    ensures value { result ≡ sup_shift_of font.now base.now sup.now }
    ensures within { IsWithin (2 ^ 34) result }
{
    font.shift
        .max(font.bottom_min + sup.ink_descent)
        .max(base.ink_ascent - font.drop_max)
}

/// The shifts of a subscript and a superscript of one base (MathML Core 3.4.1.4).
pub fn pair_shifts(
    base: &MathBox,
    cramped: bool,
    sub: &MathBox,
    sup: &MathBox,
    size: i64,
    metrics: &Metrics,
) -> Shifts
    requires base_fits { IsStored base.now }
    requires sub_fits { IsStored sub.now }
    requires sup_fits { IsStored sup.now }
    requires size_low { pos 0 ≤ℤ size }
    requires size_high { size ≤ℤ pos (2 ^ 20) }
    ensures value { result ≡ pair_shifts_of metrics.now size cramped base.now sub.now sup.now }
    ensures within { AreShiftsWithin (2 ^ 40) result }
{
    let down = sub_shift(&SubLengths::at(metrics, size), base, sub);
    let up = sup_shift(&SupLengths::at(metrics, size, cramped), base, sup);
    moved_apart(
        &PairLengths::at(metrics, size),
        &Shifts { up, down },
        sub,
        sup,
    )
}

/// Moves scripts apart, so that there is the least gap between their ink: the superscript up as far
/// as it may be, and the subscript down for the rest.
fn moved_apart(font: &PairLengths, shifts: &Shifts, sub: &MathBox, sup: &MathBox) -> Shifts
    requires font_in { ArePairLengthsWithin (2 ^ 32) font.now }
    requires shifts_in { AreShiftsWithin (2 ^ 34) shifts.now }
    requires sub_fits { IsStored sub.now }
    requires sup_fits { IsStored sup.now }
    ensures value { result ≡ moved_apart_of font.now shifts.now sub.now sup.now }
    ensures within { AreShiftsWithin (2 ^ 40) result }
{
    let bottom = shifts.up - sup.ink_descent;
    let top = sub.ink_ascent - shifts.down;
    let lack = (font.gap - (bottom - top)).max(0);
    let up = (font.bottom_max - bottom).min(lack).max(0);
    Shifts {
        up: shifts.up + up,
        down: shifts.down + (lack - up),
    }
}
