ghost use Rattle.std.specs.Prelude.{◌≡◌, ◌≤◌, ◌^◌, pos, ◌≤ℤ◌, length, IfOk};
ghost use Rattle.std.specs.List.{All};
ghost use Rattle.fixed_units.specs.Boxes.{IsStored};
ghost use Rattle.multiscripts.specs.Along.{IsPairStored};
ghost use Rattle.multiscripts.specs.Placing.{multi_of};

use crate::along::{line_of, place_pairs};
use crate::heights::{all_shifts, union};
use crate::parts::{Multi, Pair};
use fixed_units::{List, MathBox, Memory, half};
use font_metrics::{ConstName, Metrics};
use scripts::Spot;
use std::alloc::Global;

/// A base with pairs of scripts behind it and before it (MathML Core 3.4.3, "Prescripts and Tensor
/// Indices").
///
/// Lengths are in units of 1/1024 px, and `size` is the font size of the element. `large` says that
/// the base is a large operator, and `cramped` that the style of the element is.
pub fn multi(
    alloc: Global,
    base: &MathBox,
    large: bool,
    cramped: bool,
    pairs: &List<Pair>,
    size: i64,
    metrics: &Metrics,
) -> Result<Multi, Memory>
    requires few { length pairs.now ≤ 65_536 }
    requires base_fits { IsStored base.now }
    requires pairs_fit { All IsPairStored pairs.now }
    requires size_low { pos 0 ≤ℤ size }
    requires size_high { size ≤ℤ pos (2 ^ 20) }
    ensures { IfOk result (λ multi. multi
        ≡ multi_of metrics.now base.now large cramped pairs.now size) }
{
    let items = pairs.as_slice();
    let space = metrics.constant(ConstName::SpaceAfterScript, size);
    let shifts = all_shifts(base, cramped, items, size, metrics);
    let line = line_of(base, large, items, space);
    let end = line.ahead + base.width;
    let width = end + line.behind;
    let all = union(base, items, &shifts);
    let spots = place_pairs(alloc, base, large, items, space, end, &shifts)?;
    Ok(Multi {
        frame: MathBox {
            width,
            italic: 0,
            accent: half(width),
            ..all
        },
        base: Spot {
            x: line.ahead,
            y: 0,
        },
        subs: spots.subs,
        sups: spots.sups,
    })
}
