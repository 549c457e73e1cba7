ghost use Rattle.std.specs.Prelude.{◌≡◌, ◌≤◌, ◌^◌, pos, length, map, true, IfOk};
ghost use Rattle.std.specs.List.{All};
ghost use Rattle.fixed_units.specs.Boxes.{IsStored, farthest, is_stored};
ghost use Rattle.fixed_units.specs.Numbers.{IsWithin};
ghost use Rattle.fixed_units.specs.Sums.{list_to};
ghost use Rattle.math_tables.specs.Placing.{row_of_cells_of, table_width_of};
ghost use Rattle.math_tree.specs.declared.kind.Kind.TheVariants.{Mtable};
ghost use Rattle.layout_model.specs.Elements.{along, frames_of, offset};
ghost use Rattle.layout_model.specs.Equations.{cells_placed, row_at, table_outcome, table_row_outcome, widths_of};
ghost use Rattle.outcomes.specs.Outcomes.{IsOutcome};

use crate::element::Element;
use crate::row::along;
use crate::spanning::{spanned, spans_of, table_columns, table_rows};
use embellished::View;
use fixed_units::{List, MathBox, Memory, is_stored};
use layout_model::{Offset, Outcome, Stretch};
use math_tables::{row_of_cells, row_of_slots, table_finish, total_width};
use row_stretch::Row;
use std::alloc::Global;

/// A row of a table: its cells in the middle of their columns or slots (MathML Core 3.5.2).
pub fn table_row_outcome<V: View>(alloc: Global, e: &Element<V>) -> Result<Outcome, Memory>
    ensures { IfOk result (IsOutcome (table_row_outcome e.now)) }
{
    let cells = frames(alloc, e)?;
    let widths = widths(alloc, cells.as_slice())?;
    let row = cells_placed(alloc, e, &cells, &widths)?;
    let outcome = over_row(alloc, e, widths, &row);
    // Dropped by calls, so that this function's proof doesn't go through all parts.
    drop(row);
    drop(cells);
    outcome
}

/// The same over the widths of its cells, and the cells as they are placed.
fn over_row<V: View>(
    alloc: Global,
    e: &Element<V>,
    widths: List<i64>,
    row: &Row,
) -> Result<Outcome, Memory>
    requires widths { widths ≡ widths_of e.now }
    requires row { row.now ≡ cells_placed e.now }
    requires within { All (IsWithin (2 ^ 61)) row.now.offsets }
    ensures { IfOk result (IsOutcome (table_row_outcome e.now)) }
{
    let offsets = cells_along(alloc, e, row)?;
    let spans = spans_of(alloc, e)?;
    let frame = spanned(spans.as_slice(), row.frame);
    Ok(e.outcome_with(frame, widths, spans, offsets, List::make(alloc)))
}

/// Where the cells of a row stand; of one that is too wide to be stored none are told.
fn cells_along<V: View>(alloc: Global, e: &Element<V>, row: &Row) -> Result<List<Offset>, Memory>
    requires { All (IsWithin (2 ^ 61)) row.now.offsets }
    ensures { IfOk result (λ offsets. is_stored row.now.frame.width ≡ true →
        offsets ≡ along e.now row.now (pos 0) (pos 0)) }
{
    if !is_stored(row.frame.width) {
        return Ok(List::make(alloc));
    }
    along(alloc, e, row, 0, 0)
}

/// The cells of a row in their columns or slots; without them, each in a column as wide as itself.
#[tactic(auto, unfolding(layout_model::specs::Equations::cells_placed))]
fn cells_placed<V: View>(
    alloc: Global,
    e: &Element<V>,
    cells: &List<MathBox>,
    widths: &List<i64>,
) -> Result<Row, Memory>
    requires cells { cells.now ≡ frames_of e.now }
    requires stored { All IsStored cells.now }
    requires widths { widths.now ≡ widths_of e.now }
    requires widths_fit { All (IsWithin farthest) widths.now }
    ensures value { IfOk result (λ row. row ≡ cells_placed e.now) }
    ensures within { IfOk result (λ row. All (IsWithin (2 ^ 61)) row.offsets) }
{
    let _count = e.count();
    match &e.context().stretch {
        Stretch::Columns(numbers) => match numbers.as_slice().split_first() {
            Some((total, columns)) => in_columns(alloc, cells, columns, *total),
            None => alone(alloc, cells, widths),
        },
        Stretch::Slots(numbers) => match numbers.as_slice().split_first() {
            Some((total, slots)) => row_of_slots(alloc, cells, slots, *total),
            None => alone(alloc, cells, widths),
        },
        _ => alone(alloc, cells, widths),
    }
}

/// Cells in columns of these widths.
fn in_columns(
    alloc: Global,
    cells: &List<MathBox>,
    columns: &[i64],
    total: i64,
) -> Result<Row, Memory>
    requires few { length cells.now ≤ 65_536 }
    requires stored { All IsStored cells.now }
    requires columns_fit { All (IsWithin farthest) columns.now }
    ensures value { IfOk result (λ row. row ≡ row_of_cells_of cells.now columns.now total) }
    ensures within { IfOk result (λ row. All (IsWithin (2 ^ 61)) row.offsets) }
{
    let mut widths = List::make(alloc);
    widths.push_all(columns)?;
    row_of_cells(alloc, cells, &widths, total)
}

/// Cells of these widths, each in a column as wide as itself.
fn alone(alloc: Global, cells: &List<MathBox>, widths: &List<i64>) -> Result<Row, Memory>
    requires few { length cells.now ≤ 65_536 }
    requires each { length widths.now ≤ 65_536 }
    requires stored { All IsStored cells.now }
    requires widths_fit { All (IsWithin farthest) widths.now }
    ensures value { IfOk result (λ row. row ≡ row_of_cells_of cells.now widths.now (table_width_of
        widths.now)) }
    ensures within { IfOk result (λ row. All (IsWithin (2 ^ 61)) row.offsets) }
{
    row_of_cells(alloc, cells, widths, total_width(widths.as_slice()))
}

/// A table: its rows one under the other, round the axis (MathML Core 3.5.1).
pub fn table_outcome<V: View>(alloc: Global, e: &Element<V>) -> Result<Outcome, Memory>
    requires { e.now.seen.facts.laid ≡ Mtable }
    ensures { IfOk result (λ outcome. outcome ≡ table_outcome e.now) }
{
    let count = e.count();
    let rows = table_rows(alloc, e)?;
    let widths = table_columns(alloc, e)?;
    let table = table_finish(alloc, &rows, &widths, e.size(), e.metrics())?;
    let places = lines(alloc, count, table.1.as_slice())?;
    Ok(e.outcome(alloc, table.0, places, List::make(alloc)))
}

/// The places of so many rows that stand so far below the baseline of their table.
fn lines(alloc: Global, count: usize, below: &[i64]) -> Result<List<Offset>, Memory>
    requires { count ≤ 65_535 }
    ensures { IfOk result (λ places. places ≡ list_to count (λ index. offset index (pos 0) (row_at
        below.now index))) }
{
    let mut places = List::make(alloc);
    for index in 0..count {
        places.push(Offset {
            kid: index as u32,
            x: 0,
            y: line(below, index),
        })?;
    }
    Ok(places)
}

fn line(below: &[i64], index: usize) -> i64
    ensures { result ≡ row_at below.now index }
{
    match below.get(index) {
        Some(y) => *y,
        None => 0,
    }
}

/// The boxes of the children in flow.
pub fn frames<V: View>(alloc: Global, e: &Element<V>) -> Result<List<MathBox>, Memory>
    ensures value { IfOk result (λ frames. frames ≡ frames_of e.now) }
    ensures stored { IfOk result (λ frames. All IsStored frames) }
{
    let mut frames = List::make(alloc);
    for index in 0..e.count() {
        frames.push(e.frame(index))?;
    }
    Ok(frames)
}

/// The widths of boxes.
fn widths(alloc: Global, frames: &[MathBox]) -> Result<List<i64>, Memory>
    requires { All IsStored frames.now }
    ensures value { IfOk result (λ widths. widths ≡ map (λ frame. frame.width) frames.now) }
    ensures within { IfOk result (λ widths. All (IsWithin farthest) widths) }
{
    let mut widths = List::make(alloc);
    for frame in frames {
        widths.push(frame.width)?;
    }
    Ok(widths)
}
