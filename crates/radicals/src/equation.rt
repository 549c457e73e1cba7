ghost use Rattle.std.specs.Prelude.{◌≡◌, ◌^◌};
ghost use Rattle.fixed_units.specs.Boxes.{IsBoxWithin, IsStored};
ghost use Rattle.fixed_units.specs.Numbers.{IsWithin};
ghost use Rattle.radicals.specs.Equation.{IsRow, IsRootBox, top_of, root_frame_of, kern_before_of, root_start_of, share_of, index_height_of};
ghost use Rattle.radicals.specs.Lengths.{AreRootLengthsWithin, AreIndexLengthsWithin};

use crate::lengths::{IndexLengths, RootLengths};
use fixed_units::{MathBox, Ratio, half, round};

/// The height of the rule's upper edge: the gap and the rule over the ink (MathML Core 3.3.3.2).
#[tactic(auto, using(fixed_units::proofs::Signed::from_bits), unfolding(crate::specs::Equation::top_of))]
pub fn top(font: &RootLengths, base: &MathBox) -> i64
    requires font_in { AreRootLengthsWithin (2 ^ 32) font.now }
    requires base_in { IsRow base.now }
    ensures value { result ≡ top_of font.now base.now }
    ensures within { IsWithin (2 ^ 34) result }
{
    base.ink_ascent + font.gap + font.thickness
}

/// The box of a root whose surd ends at the rule's upper edge.
pub fn root_frame(font: &RootLengths, base: &MathBox, surd: &MathBox) -> MathBox
    requires font_in { AreRootLengthsWithin (2 ^ 32) font.now }
    requires base_in { IsRow base.now }
    requires surd_in { IsBoxWithin (2 ^ 41) surd.now }
    ensures value { result ≡ root_frame_of font.now base.now surd.now }
    ensures within { IsRootBox result }
{
    let top = top(font, base);
    let foot = surd.ink_ascent + surd.ink_descent - top;
    let width = surd.width + base.width;
    MathBox {
        width,
        ascent: base.ascent.max(top + font.extra),
        descent: base.descent.max(foot),
        ink_ascent: base.ink_ascent.max(top),
        ink_descent: base.ink_descent.max(foot),
        italic: 0,
        accent: half(width),
    }
}

/// The space ahead of an index, which is never below 0.
pub fn kern_before(font: &IndexLengths) -> i64
    requires font_in { AreIndexLengthsWithin (2 ^ 32) font.now }
    ensures value { result ≡ kern_before_of font.now }
    ensures within { IsWithin (2 ^ 32) result }
{
    font.kern_before.max(0)
}

/// Where the root begins that stands behind an index: the space behind the index takes back at most
/// its own width.
pub fn root_start(font: &IndexLengths, index: &MathBox) -> i64
    requires font_in { AreIndexLengthsWithin (2 ^ 32) font.now }
    requires index_in { IsStored index.now }
    ensures value { result ≡ root_start_of font.now index.now }
    ensures within { IsWithin (2 ^ 34) result }
{
    kern_before(font) + index.width + font.kern_after.max(-index.width)
}

/// The height of an index: the foot of its ink lies that share of the root's ink above the foot of
/// the root's (MathML Core 3.3.3.3).
pub fn index_height(font: &IndexLengths, root: &MathBox, index: &MathBox) -> i64
    requires font_in { AreIndexLengthsWithin (2 ^ 32) font.now }
    requires root_in { IsRootBox root.now }
    requires index_in { IsStored index.now }
    ensures value { result ≡ index_height_of font.now root.now index.now }
    ensures within { IsWithin (2 ^ 55) result }
{
    share(font.raise, root.ink_ascent + root.ink_descent) - root.ink_descent + index.ink_descent
}

/// So many percent of a length.
fn share(percent: i64, length: i64) -> i64
    requires percent_in { IsWithin (2 ^ 16) percent }
    requires length_in { IsWithin (2 ^ 44) length }
    ensures { result ≡ share_of percent length }
{
    round(Ratio {
        num: i128::from(percent) * i128::from(length),
        den: 100,
    })
}
