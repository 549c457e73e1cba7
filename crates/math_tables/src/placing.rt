ghost use Rattle.std.specs.Prelude.{◌≡◌, ◌+◌, ◌*◌, ◌<◌, ◌≤◌, ◌^◌, length, IfOk, pos, ◌+ℤ◌, ◌-ℤ◌, ◌≤ℤ◌};
ghost use Rattle.std.specs.List.{All};
ghost use Rattle.fixed_units.specs.Boxes.{IsStored, farthest};
ghost use Rattle.fixed_units.specs.Numbers.{IsWithin, halved};
ghost use Rattle.math_tables.specs.Placing.{HasHeights, IsColumn, most_columns, width_at, cell_offsets_of, row_of_cells_of, slot_offsets_of, row_of_slots_of, baselines_below, row_offsets_of, table_frame_of};

use crate::totals::{height, total_height, total_width};
use fixed_units::{List, MathBox, Memory, half, join_all};
use font_metrics::{ConstName, Metrics};
use row_stretch::Row;
use std::alloc::Global;

/// Sets the cells of a row in the middle of their columns. `total` is the width of the table.
pub fn row_of_cells(
    alloc: Global,
    cells: &List<MathBox>,
    widths: &List<i64>,
    total: i64,
) -> Result<Row, Memory>
    requires few { length cells.now ≤ 65_536 }
    requires cells_fit { All IsStored cells.now }
    requires widths_fit { All (IsWithin farthest) widths.now }
    ensures { IfOk result (λ row. row ≡ row_of_cells_of cells.now widths.now total) }
{
    let offsets = cell_offsets(alloc, cells.as_slice(), widths.as_slice())?;
    let all = join_all(cells.as_slice());
    Ok(Row {
        frame: MathBox {
            width: total,
            italic: 0,
            accent: half(total),
            ..all
        },
        offsets,
    })
}

/// Sets the cells of a row in the middle of their slots. Of each slot `slots` has where it begins,
/// and then how wide it is. `total` is the width of the table.
pub fn row_of_slots(
    alloc: Global,
    cells: &List<MathBox>,
    slots: &[i64],
    total: i64,
) -> Result<Row, Memory>
    requires few { length cells.now ≤ 65_536 }
    requires cells_fit { All IsStored cells.now }
    requires slots_within { All (IsWithin (2 ^ 60)) slots.now }
    ensures value { IfOk result (λ row. row ≡ row_of_slots_of cells.now slots.now total) }
    ensures within { IfOk result (λ row. All (IsWithin (2 ^ 61)) row.offsets) }
{
    let offsets = slot_offsets(alloc, cells.as_slice(), slots)?;
    let all = join_all(cells.as_slice());
    Ok(Row {
        frame: MathBox {
            width: total,
            italic: 0,
            accent: half(total),
            ..all
        },
        offsets,
    })
}

/// Where cells begin that stand in the middle of slots.
fn slot_offsets(alloc: Global, cells: &[MathBox], slots: &[i64]) -> Result<List<i64>, Memory>
    requires few { length cells.now ≤ 65_536 }
    requires cells_fit { All IsStored cells.now }
    requires slots_within { All (IsWithin (2 ^ 60)) slots.now }
    ensures value { IfOk result (λ offsets. offsets ≡ slot_offsets_of cells.now slots.now) }
    ensures within { IfOk result (All (IsWithin (2 ^ 61))) }
{
    let mut offsets = List::make(alloc);
    for (place, cell) in cells.iter().enumerate() {
        offsets.push(slot_x(cell, slots, place))?;
    }
    Ok(offsets)
}

/// Where the cell at a place begins: in the middle of its slot.
fn slot_x(cell: &MathBox, slots: &[i64], place: usize) -> i64
    requires place_in { place < 65_536 }
    requires cell_fits { IsStored cell.now }
    requires slots_within { All (IsWithin (2 ^ 60)) slots.now }
    ensures value { result ≡ width_at slots.now (2 * place)
        +ℤ halved (width_at slots.now (2 * place + 1) -ℤ cell.now.width) }
    ensures within { IsWithin (2 ^ 61) result }
{
    number_at(slots, 2 * place) + half(number_at(slots, 2 * place + 1) - cell.width)
}

/// The number at a place; without one, 0.
fn number_at(slots: &[i64], place: usize) -> i64
    requires { All (IsWithin (2 ^ 60)) slots.now }
    ensures value { result ≡ width_at slots.now place }
    ensures within { IsWithin (2 ^ 60) result }
{
    match slots.get(place) {
        Some(number) => *number,
        None => 0,
    }
}

/// Where cells begin that stand in the middle of columns of these widths.
fn cell_offsets(alloc: Global, cells: &[MathBox], widths: &[i64]) -> Result<List<i64>, Memory>
    requires few { length cells.now ≤ 65_536 }
    requires cells_fit { All IsStored cells.now }
    requires widths_fit { All (IsWithin farthest) widths.now }
    ensures { IfOk result (λ offsets. offsets ≡ cell_offsets_of cells.now widths.now) }
{
    let mut offsets = List::make(alloc);
    let mut start = 0;
    for (place, cell) in cells.iter().enumerate() {
        let width = width_at(widths, place);
        offsets.push(start + half(width - cell.width))?;
        start += width;
    }
    Ok(offsets)
}

/// The width of the column at a place; without one, 0.
fn width_at(widths: &[i64], place: usize) -> i64
    requires { All (IsWithin farthest) widths.now }
    ensures value { result ≡ width_at widths.now place }
    ensures within { IsWithin farthest result }
{
    match widths.get(place) {
        Some(width) => *width,
        None => 0,
    }
}

/// Sets the rows of a table one under the other, so that its middle lies on the axis. The second
/// part of the answer is, for each row, how far its baseline lies below that of the table.
pub fn table_finish(
    alloc: Global,
    rows: &List<MathBox>,
    widths: &List<i64>,
    size: i64,
    metrics: &Metrics,
) -> Result<(MathBox, List<i64>), Memory>
    requires few_rows { length rows.now ≤ 65_536 }
    requires few_columns { length widths.now ≤ most_columns }
    requires rows_within { All HasHeights rows.now }
    requires widths_within { All IsColumn widths.now }
    requires size_low { pos 0 ≤ℤ size }
    requires size_high { size ≤ℤ pos (2 ^ 20) }
    ensures frame { IfOk result (λ table. table.0
        ≡ table_frame_of metrics.now rows.now widths.now size) }
    ensures offsets { IfOk result (λ table. table.1 ≡ row_offsets_of metrics.now rows.now size) }
{
    let height = total_height(rows.as_slice());
    let ascent = half(height) + metrics.constant(ConstName::AxisHeight, size);
    let offsets = row_offsets(alloc, rows.as_slice(), ascent)?;
    let descent = height - ascent;
    let width = total_width(widths.as_slice());
    let frame = MathBox {
        width,
        ascent,
        descent,
        ink_ascent: ascent,
        ink_descent: descent,
        italic: 0,
        accent: half(width),
    };
    Ok((frame, offsets))
}

/// How far the baselines of rows lie below that of a table with this ascent.
fn row_offsets(alloc: Global, rows: &[MathBox], ascent: i64) -> Result<List<i64>, Memory>
    requires few { length rows.now ≤ 65_536 }
    requires within { All HasHeights rows.now }
    requires ascent_in { IsWithin (2 ^ 62) ascent }
    ensures { IfOk result (λ offsets. offsets ≡ baselines_below ascent rows.now) }
{
    let mut offsets = List::make(alloc);
    let mut top = 0;
    for row in rows {
        offsets.push(top + row.ascent - ascent)?;
        top += height(row);
    }
    Ok(offsets)
}
