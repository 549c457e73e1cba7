ghost use Rattle.std.specs.Prelude.{◌≡◌, ◌+◌, ◌-◌, ◌^◌, ◌≤◌, ◌<◌, ◌++◌, length, IfOk, OnOk};
ghost use Rattle.std.specs.List.{All};
ghost use Rattle.fixed_units.specs.Numbers.{IsWithin};
ghost use Rattle.span_tables.specs.Slots.{slots_of, slots_by, pairs_by, starts_of, AreInside};
ghost use Rattle.span_tables.specs.Widths.{IsColumn};

use crate::SpanCell;
use fixed_units::{List, Memory};
use std::alloc::Global;

/// The slots of the cells of a row: first the sum of all columns, and then for each cell where its
/// slot begins and how wide it is.
pub fn slots_of_row(
    alloc: Global,
    cells: &List<SpanCell>,
    firsts: &List<u32>,
    widths: &List<i64>,
) -> Result<List<i64>, Memory>
    requires few { length widths.now ≤ 2 ^ 22 }
    requires columns { All IsColumn widths.now }
    requires inside { AreInside (length widths.now) cells.now firsts.now }
    ensures { IfOk result (λ slots. slots ≡ slots_of cells.now firsts.now widths.now) }
{
    let starts = column_starts(alloc, widths)?;
    slots_from(alloc, cells, firsts, &starts)
}

/// The same from where the columns begin.
pub fn slots_from(
    alloc: Global,
    cells: &List<SpanCell>,
    firsts: &List<u32>,
    starts: &List<i64>,
) -> Result<List<i64>, Memory>
    requires some { 1 ≤ length starts.now }
    requires within { All (IsWithin (2 ^ 58)) starts.now }
    requires inside { AreInside (length starts.now - 1) cells.now firsts.now }
    ensures { IfOk result (λ slots. slots ≡ slots_by starts.now cells.now firsts.now) }
{
    let starts = starts.as_slice();
    let mut slots = List::make(alloc);
    slots.push(starts[starts.len() - 1])?;
    push_slots(&mut slots, cells.as_slice(), firsts.as_slice(), starts)?;
    Ok(slots)
}

/// Adds the slots of cells.
fn push_slots(
    slots: &mut List<i64>,
    cells: &[SpanCell],
    firsts: &[u32],
    starts: &[i64],
) -> Result<(), Memory>
    requires some { 1 ≤ length starts.now }
    requires within { All (IsWithin (2 ^ 58)) starts.now }
    requires inside { AreInside (length starts.now - 1) cells.now firsts.now }
    ensures { OnOk result (slots.new ≡ slots.old ++ pairs_by starts.now cells.now firsts.now) }
{
    for (place, cell) in cells.iter().enumerate() {
        let first = firsts[place] as usize;
        let x = starts[first];
        slots.push(x)?;
        slots.push(starts[first + cell.span.columns as usize] - x)?;
    }
    Ok(())
}

/// Where each column begins, and where the last one ends. It is found once for a table.
pub fn column_starts(alloc: Global, widths: &List<i64>) -> Result<List<i64>, Memory>
    requires few { length widths.now ≤ 2 ^ 22 }
    requires columns { All IsColumn widths.now }
    ensures { IfOk result (λ starts. starts ≡ starts_of widths.now) }
{
    let mut starts = List::make(alloc);
    let mut start = 0;
    starts.push(start)?;
    for width in widths.as_slice() {
        start += *width;
        starts.push(start)?;
    }
    Ok(starts)
}
