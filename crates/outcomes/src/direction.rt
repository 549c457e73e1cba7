//! The direction of an element: from right to left, what stands in it is mirrored.
ghost use Rattle.std.specs.Prelude.{◌≡◌, ◌^◌};
ghost use Rattle.fixed_units.specs.Numbers.{IsWithin};
ghost use Rattle.layout_model.specs.Direction.{mirrored, turned, turned_corner, turned_mark, x_of};
ghost use Rattle.layout_model.specs.Elements.{placed_in};
ghost use Rattle.outcomes.specs.Reach.{mark_reached, offset_reached, reached};

use crate::element::Element;
use embellished::View;
use fixed_units::MathBox;
use font_metrics::{Corner, Mark};
use layout_model::Offset;

/// Where a part of a width begins in a whole, seen from the other end of the whole, in units.
#[tactic(auto, using(fixed_units::proofs::Signed::from_bits), unfolding(layout_model::specs::Direction::mirrored))]
pub fn mirrored(whole: i64, part: i128, x: i64) -> i128
    requires { IsWithin (2 ^ 66) part }
    ensures { result ≡ mirrored whole part x }
{
    i128::from(whole) - i128::from(x) - part
}

/// How far a place is told: farther than anything that can be stored.
const REACH: i128 = 1 << 60;

/// Where a part begins in an element, where it is laid out from left to right at `x`. A place past
/// what can be stored is told as one that can't be stored either.
#[tactic(auto, using(fixed_units::proofs::Signed::from_bits), unfolding(crate::specs::Reach::reached))]
pub fn turned(rtl: bool, whole: i64, part: i128, x: i64) -> i64
    requires { IsWithin (2 ^ 66) part }
    ensures { result ≡ reached (turned rtl whole part x) }
{
    let x = if rtl {
        mirrored(whole, part, x)
    } else {
        i128::from(x)
    };
    x.min(REACH).max(-REACH) as i64
}

/// The same of what is drawn.
pub fn turned_mark(rtl: bool, whole: i64, part: i128, mark: &Mark) -> Mark
    requires { IsWithin (2 ^ 66) part }
    ensures { result ≡ mark_reached (turned_mark rtl whole part mark.now) }
{
    match *mark {
        Mark::Glyph { x, y, size, glyph } => Mark::Glyph {
            x: turned(rtl, whole, part, x),
            y,
            size,
            glyph,
        },
        Mark::Rule {
            x,
            y,
            width,
            height,
        } => Mark::Rule {
            x: turned(rtl, whole, part, x),
            y,
            width,
            height,
        },
        Mark::Built {
            x,
            y,
            size,
            axis,
            glyph,
            count,
            overlap,
        } => Mark::Built {
            x: turned(rtl, whole, part, x),
            y,
            size,
            axis,
            glyph,
            count,
            overlap,
        },
    }
}

/// Where a mark begins.
pub fn x_of(mark: &Mark) -> i64
    ensures { result ≡ x_of mark.now }
{
    match mark {
        Mark::Glyph { x, .. } | Mark::Rule { x, .. } | Mark::Built { x, .. } => *x,
    }
}

/// A corner, or from right to left the one on the other side.
pub fn turned_corner(rtl: bool, corner: Corner) -> Corner
    ensures { result ≡ turned_corner rtl corner }
{
    if !rtl {
        return corner;
    }
    match corner {
        Corner::TopRight => Corner::TopLeft,
        Corner::TopLeft => Corner::TopRight,
        Corner::BottomRight => Corner::BottomLeft,
        Corner::BottomLeft => Corner::BottomRight,
    }
}

/// The child at a place in a box, in the direction of the element.
pub fn placed_in<V: View>(e: &Element<V>, frame: &MathBox, kid: u32, x: i64, y: i64) -> Offset
    ensures { result ≡ offset_reached (placed_in e.now frame.now kid x y) }
{
    let part = i128::from(e.frame(kid as usize).width);
    Offset {
        kid,
        x: turned(e.context().style.rtl, frame.width, part, x),
        y,
    }
}
