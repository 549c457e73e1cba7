ghost use Rattle.std.specs.Prelude.{◌≡◌, ◌+◌, ◌*◌, ◌^◌};
ghost use Rattle.fixed_units.specs.Boxes.{IsStored};
ghost use Rattle.fixed_units.specs.Numbers.{IsWithin};
ghost use Rattle.fractions.specs.Equation.{clear_shift_of, rule_shifts_of, stack_shifts_of, AreShiftsWithin};
ghost use Rattle.fractions.specs.Lengths.{AreRuleLengthsWithin, AreStackLengthsWithin};

use crate::lengths::{RuleLengths, StackLengths};
use crate::parts::Shifts;
use fixed_units::{MathBox, half};

/// The shifts of the parts round a rule of this thickness, whose middle lies on the axis (MathML
/// Core 3.3.2.1, "Fraction with nonzero line thickness").
pub fn rule_shifts(font: &RuleLengths, top: &MathBox, bottom: &MathBox, thickness: i64) -> Shifts
    requires font_in { AreRuleLengthsWithin (2 ^ 32) font.now }
    requires top_fits { IsStored top.now }
    requires bottom_fits { IsStored bottom.now }
    requires thickness_in { IsWithin (10 ^ 9 * 2 ^ 32) thickness }
    ensures value { result ≡ rule_shifts_of font.now top.now bottom.now thickness }
    ensures within { AreShiftsWithin (2 ^ 61) result }
{
    let reach = half(thickness);
    Shifts {
        up: clear_shift(
            font.shift_up,
            font.gap_above,
            top.ink_descent,
            font.axis + reach,
        ),
        down: clear_shift(
            font.shift_down,
            font.gap_below,
            bottom.ink_ascent,
            reach - font.axis,
        ),
    }
}

/// The shift of a part beside a rule: its usual one, or more, so that its ink keeps the gap to the
/// rule's edge. The edge is measured from the baseline toward the part.
fn clear_shift(usual: i64, gap: i64, ink: i64, edge: i64) -> i64
    requires usual_in { IsWithin (2 ^ 32) usual }
    requires gap_in { IsWithin (2 ^ 32) gap }
    requires ink_in { IsWithin (2 ^ 30) ink }
    requires edge_in { IsWithin (2 ^ 32 + 10 ^ 9 * 2 ^ 31) edge }
    ensures { result ≡ clear_shift_of usual gap ink edge }
{
    usual.max(gap + ink + edge)
}

/// The shifts of the parts of a stack: the usual ones, or both more, so that there is the least gap
/// between the ink of the parts (MathML Core 3.3.2.2, "Fraction with zero line thickness").
///
/// Own choice: of an odd lack the lower part makes up for the odd unit.
pub fn stack_shifts(font: &StackLengths, top: &MathBox, bottom: &MathBox) -> Shifts
    requires font_in { AreStackLengthsWithin (2 ^ 32) font.now }
    requires top_fits { IsStored top.now }
    requires bottom_fits { IsStored bottom.now }
    ensures value { result ≡ stack_shifts_of font.now top.now bottom.now }
    ensures within { AreShiftsWithin (2 ^ 61) result }
{
    let gap = (font.shift_up - top.ink_descent) + (font.shift_down - bottom.ink_ascent);
    let lack = (font.gap - gap).max(0);
    let above = half(lack);
    Shifts {
        up: font.shift_up + above,
        down: font.shift_down + (lack - above),
    }
}
