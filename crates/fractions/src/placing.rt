ghost use Rattle.std.specs.Prelude.{◌≡◌, ◌*◌, ◌^◌, pos, ◌≤ℤ◌};
ghost use Rattle.fixed_units.specs.Boxes.{IsStored};
ghost use Rattle.fixed_units.specs.Numbers.{IsWithin};
ghost use Rattle.fractions.specs.Equation.{AreShiftsWithin};
ghost use Rattle.fractions.specs.Placing.{centred_of, placed_of, with_rule_of, fraction_of};

use crate::equation::{rule_shifts, stack_shifts};
use crate::lengths::{RuleLengths, StackLengths};
use crate::parts::{Fraction, Shifts, Spot};
use fixed_units::{MathBox, half, join, raise};
use font_metrics::{Mark, Metrics};

/// A numerator over a denominator, with a rule of the given thickness between them; without one
/// where the thickness is 0 or less (MathML Core 3.3.2, "Fractions").
///
/// Lengths are in units of 1/1024 px. `size` is the font size of the fraction, and `display` says
/// that its style is display style.
pub fn fraction(
    top: &MathBox,
    bottom: &MathBox,
    thickness: i64,
    display: bool,
    size: i64,
    metrics: &Metrics,
) -> Fraction
    requires top_fits { IsStored top.now }
    requires bottom_fits { IsStored bottom.now }
    requires thickness_in { IsWithin (10 ^ 9 * 2 ^ 32) thickness }
    requires size_low { pos 0 ≤ℤ size }
    requires size_high { size ≤ℤ pos (2 ^ 20) }
    ensures { result ≡ fraction_of metrics.now top.now bottom.now thickness display size }
{
    if thickness > 0 {
        let font = RuleLengths::at(metrics, size, display);
        let shifts = rule_shifts(&font, top, bottom, thickness);
        let parts = placed(top, bottom, &shifts);
        with_rule(parts, font.axis, thickness)
    } else {
        let font = StackLengths::at(metrics, size, display);
        let shifts = stack_shifts(&font, top, bottom);
        placed(top, bottom, &shifts)
    }
}

/// What stays free at both ends of a fraction: 1 px, the padding of `mfrac` in the style sheet of
/// MathML Core.
const BEARING: i64 = 1024;

/// The two parts at their heights, each in the middle of the wider one's width.
fn placed(top: &MathBox, bottom: &MathBox, shifts: &Shifts) -> Fraction
    requires top_fits { IsStored top.now }
    requires bottom_fits { IsStored bottom.now }
    requires shifts_in { AreShiftsWithin (2 ^ 61) shifts.now }
    ensures { result ≡ placed_of top.now bottom.now shifts.now }
{
    let inner = top.width.max(bottom.width);
    let width = inner + 2 * BEARING;
    let parts = join(&raise(top, shifts.up), &raise(bottom, -shifts.down));
    Fraction {
        frame: MathBox {
            width,
            italic: 0,
            accent: half(width),
            ..parts
        },
        top: Spot {
            x: centred(inner, top.width),
            y: -shifts.up,
        },
        bottom: Spot {
            x: centred(inner, bottom.width),
            y: shifts.down,
        },
        rule: None,
    }
}

/// Where a part of this width begins.
fn centred(inner: i64, width: i64) -> i64
    requires inner_in { IsWithin (2 ^ 30) inner }
    requires width_in { IsWithin (2 ^ 30) width }
    ensures { result ≡ centred_of inner width }
{
    BEARING + half(inner - width)
}

/// Adds a rule on the axis, as long as the wider part: its lower edge lies half of its thickness
/// below the axis.
fn with_rule(parts: Fraction, axis: i64, thickness: i64) -> Fraction
    requires width_in { IsWithin (2 ^ 32) parts.frame.width }
    requires axis_in { IsWithin (2 ^ 32) axis }
    requires thickness_in { IsWithin (10 ^ 9 * 2 ^ 32) thickness }
    ensures { result ≡ with_rule_of parts axis thickness }
{
    let lower = axis - half(thickness);
    let upper = lower + thickness;
    let rule = MathBox {
        width: 0,
        ascent: upper,
        descent: -lower,
        ink_ascent: upper,
        ink_descent: -lower,
        italic: 0,
        accent: 0,
    };
    Fraction {
        frame: join(&parts.frame, &rule),
        rule: Some(Mark::Rule {
            x: BEARING,
            y: -upper,
            width: parts.frame.width - 2 * BEARING,
            height: thickness,
        }),
        ..parts
    }
}
