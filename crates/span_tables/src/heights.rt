ghost use Rattle.std.specs.Prelude.{◌≡◌, ◌+◌, ◌-◌, ◌^◌, ◌≤◌, ◌<◌, ◌+ℤ◌, ◌-ℤ◌, length, fold, IfOk};
ghost use Rattle.std.specs.List.{All};
ghost use Rattle.fixed_units.specs.Numbers.{IsWithin};
ghost use Rattle.span_tables.specs.Bounds.{HasSpan, IsStored, most_rows};
ghost use Rattle.fixed_units.specs.Boxes.{farthest};
ghost use Rattle.span_tables.specs.Heights.{height_at, height_over, deepened, deepened_by, span_heights_of, IsHeightStored, IsRow};

use crate::{RowHeight, SpanCell};
use fixed_units::{List, Memory};
use std::alloc::Global;

/// The heights of rows, where the last row under each cell over several ones is as deep as that
/// cell needs.
pub fn span_heights(
    alloc: Global,
    rows: &List<List<SpanCell>>,
    heights: &List<RowHeight>,
) -> Result<List<RowHeight>, Memory>
    requires few_rows { length rows.now ≤ 65_536 }
    requires each { length heights.now ≡ length rows.now }
    requires spans { All (All HasSpan) rows.now }
    requires stored { All (All IsStored) rows.now }
    requires heights_stored { All IsHeightStored heights.now }
    ensures value { IfOk result (λ deepened. deepened ≡ span_heights_of rows.now heights.now) }
    ensures within { IfOk result (λ deepened. All IsRow deepened) }
{
    let mut deepened = Vec::from_slice(alloc, heights.as_slice())?;
    deepen_all(deepened.as_mut_slice(), rows.as_slice());
    Ok(List::from(deepened))
}

/// Deepens rows to all cells.
fn deepen_all(heights: &mut [RowHeight], rows: &[List<SpanCell>])
    requires few { length rows.now ≤ 65_536 }
    requires each { length heights.old ≡ length rows.now }
    requires rows { All IsRow heights.old }
    requires spans { All (All HasSpan) rows.now }
    requires stored { All (All IsStored) rows.now }
    ensures value { heights.new ≡ span_heights_of rows.now heights.old }
    ensures rows { All IsRow heights.new }
{
    for (row, cells) in rows.iter().enumerate() {
        deepen_along(heights, row, cells.as_slice());
    }
}

/// Deepens rows to the cells of one.
fn deepen_along(heights: &mut [RowHeight], row: usize, cells: &[SpanCell])
    requires few { length heights.old ≤ 65_536 }
    requires row_in { row < length heights.old }
    requires rows { All IsRow heights.old }
    requires spans { All HasSpan cells.now }
    requires stored { All IsStored cells.now }
    ensures value { heights.new ≡ fold (deepened_by row) heights.old cells.now }
    ensures rows { All IsRow heights.new }
{
    for cell in cells {
        deepen_by(heights, row, cell);
    }
}

/// Gives the last row under a cell over several ones what the cell lacks.
fn deepen_by(heights: &mut [RowHeight], row: usize, cell: &SpanCell)
    requires few { length heights.old ≤ 65_536 }
    requires row_in { row < length heights.old }
    requires rows { All IsRow heights.old }
    requires span { HasSpan cell.now }
    requires stored { IsStored cell.now }
    ensures { heights.new ≡ deepened_by row heights.old cell.now }
{
    let end = heights.len().min(row + cell.span.rows as usize);
    let lack = lack_below(heights, row, end, cell.span.descent);
    if 1 < cell.span.rows && 0 < lack {
        deepen(heights, end - 1, lack);
    }
}

/// By how much a descent exceeds that of a row and the rows below it, to before `end`.
fn lack_below(heights: &[RowHeight], row: usize, end: usize, descent: i64) -> i64
    requires rows { All IsRow heights.now }
    requires order { row < end }
    requires few { end ≤ row + 1_000 }
    requires inside { end ≤ length heights.now }
    requires descent_in { IsWithin farthest descent }
    ensures value { result ≡ descent
        -ℤ ((height_at heights.now row).descent
        +ℤ height_over heights.now (row + 1) (end - (row + 1))) }
    ensures within { IsWithin (2 ^ 54) result }
{
    descent - (heights[row].descent + height_over(heights, row + 1, end - (row + 1)))
}

/// Makes a row deeper.
fn deepen(heights: &mut [RowHeight], row: usize, lack: i64)
    requires rows { All IsRow heights.old }
    requires row_in { row < length heights.old }
    requires lack_in { IsWithin (2 ^ 54) lack }
    ensures { heights.new ≡ deepened heights.old row lack }
{
    heights[row].descent += lack;
}

/// What rows take together.
fn height_over(heights: &[RowHeight], first: usize, count: usize) -> i64
    requires rows { All IsRow heights.now }
    requires few { count ≤ most_rows }
    requires inside { first + count ≤ length heights.now }
    ensures value { result ≡ height_over heights.now first count }
    ensures within { IsWithin (2 ^ 53) result }
{
    let mut total = 0;
    for place in 0..count {
        let height = heights[first + place];
        total += height.ascent + height.descent;
    }
    total
}
