ghost use Rattle.std.specs.Prelude.{◌≡◌, ◌≤◌, length, IfOk};
ghost use Rattle.std.specs.List.{All};
ghost use Rattle.row_stretch.specs.Equation.{row_of, IsKidStored};

use crate::equation::{EMPTY, accent, advance, ahead, with_kid};
use crate::kids::RowKids;
use crate::parts::Row;
use fixed_units::{List, MathBox, Memory};
use std::alloc::Global;

/// Sets children side by side (MathML Core 3.3.1.2). `spaces` says that the row shows the spaces of
/// operators among them, as a row does that isn't itself embellished.
pub fn row_finish<K: RowKids>(alloc: Global, kids: &K, spaces: bool) -> Result<Row, Memory>
    requires few { length (K.kids kids.now) ≤ 65_536 }
    requires fit { All IsKidStored (K.kids kids.now) }
    ensures { IfOk result (λ row. row ≡ row_of spaces (K.kids kids.now)) }
{
    let count = kids.kid_count();
    let mut offsets = Vec::with_capacity(alloc, count)?;
    let mut at = 0;
    let mut italic = 0;
    let mut all = EMPTY;
    for place in 0..count {
        let kid = kids.kid_at(place);
        at += ahead(&kid, italic, spaces);
        offsets.push_reserved(at);
        at += advance(&kid, spaces);
        italic = kid.frame.italic;
        all = with_kid(&all, place, &kid);
    }
    let accent = accent(kids, spaces, at);
    Ok(Row {
        frame: MathBox {
            width: at,
            ascent: all.ascent,
            descent: all.descent,
            ink_ascent: all.ink_ascent,
            ink_descent: all.ink_descent,
            italic,
            accent,
        },
        offsets: List::from(offsets),
    })
}
