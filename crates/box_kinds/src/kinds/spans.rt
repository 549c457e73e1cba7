//! `span_of`, `spans`: cells that span columns and rows.
ghost use Rattle.std.specs.Prelude.{◌≡◌, ◌≤◌, ◌^◌, length, IfOk};
ghost use Rattle.std.specs.List.{All};
ghost use Rattle.span_tables.specs.Bounds.{HasSpan, IsSpanStored, IsStored, cell_count, most_cells};
ghost use Rattle.span_tables.specs.Heights.{IsHeightStored};
ghost use Rattle.span_tables.specs.Standing.{first_columns_of};
ghost use Rattle.span_tables.specs.Widths.{span_columns_of, IsColumn};

use crate::values::{add_numbers, rows_in};
use case_format::{Case, Fault, Fields, written};
use fixed_units::List;
use span_tables::laws::{cells_stand_inside, rows_of_stored_cells_are_stored};
use span_tables::{
    CellSpan, MOST_ROWS, RowHeight, SpanCell, first_columns, row_height, slots_of_row,
    span_columns, span_heights, span_of,
};
use std::alloc::{AllocError, Global};
use std::fmt::Write;

/// Adds the answer of a case of `span_of`.
pub fn answer_span(case: Case, words: &mut String) -> Result<(), Fault> {
    let fields = Fields::of_value(case.value, &["text", "most"])?;
    let text = text_in(fields)?;
    let most = fields.within("most", 1, i64::from(MOST_ROWS))?;
    let span = span_of(text, most as u32);
    written(write!(words, "{span}"))
}

/// The text of the key `text`, where there is one.
fn text_in<'a>(fields: Fields<'a>) -> Result<Option<&'a str>, Fault> {
    if fields.has("text") {
        Ok(Some(fields.text("text")?))
    } else {
        Ok(None)
    }
}

/// Adds the answer of a case of `spans`.
pub fn answer_table(case: Case, words: &mut String) -> Result<(), Fault> {
    let fields = Fields::of_value(case.value, &["rows"])?;
    let rows = rows_in(case.alloc, fields)?;
    let answered = add_table(case.alloc, &rows, words);
    // Dropped by a call, so that this function's proof doesn't go through all parts.
    drop(rows);
    answered
}

/// Adds what is told of the table of these rows.
fn add_table(alloc: Global, rows: &List<List<SpanCell>>, words: &mut String) -> Result<(), Fault>
    requires few_rows { length rows.now ≤ 65_536 }
    requires few_cells { cell_count rows.now ≤ most_cells }
    requires spans { All (All HasSpan) rows.now }
    requires stored { All (All IsStored) rows.now }
{
    let firsts = first_columns(alloc, rows)?;
    let widths = span_columns(alloc, rows, &firsts)?;
    add_firsts_and_widths(&firsts, &widths, words)?;
    add_heights(alloc, rows, words)?;
    add_slots(alloc, rows, &firsts, &widths, words)
}

/// Adds in which columns cells begin, and how wide columns are, each with `; ` behind it.
fn add_firsts_and_widths(
    firsts: &List<List<u32>>,
    widths: &List<i64>,
    words: &mut String,
) -> Result<(), AllocError> {
    add_firsts(firsts, words)?;
    words.push_str("; ")?;
    add_numbers(widths, words)?;
    words.push_str("; ")
}

/// Adds the columns in which the cells of each row begin.
fn add_firsts(firsts: &List<List<u32>>, words: &mut String) -> Result<(), AllocError> {
    if firsts.is_empty() {
        return words.push('-');
    }
    for (row, along) in firsts.as_slice().iter().enumerate() {
        add_gap(row, words)?;
        add_columns(along.as_slice(), words)?;
    }
    Ok(())
}

/// The same of one row.
fn add_columns(columns: &[u32], words: &mut String) -> Result<(), AllocError> {
    if columns.is_empty() {
        return words.push('-');
    }
    for (place, column) in columns.iter().enumerate() {
        let gap = if place == 0 { "" } else { " " };
        write!(words, "{gap}{column}")?;
    }
    Ok(())
}

/// What stands ahead of the row at a place.
fn add_gap(row: usize, words: &mut String) -> Result<(), AllocError> {
    words.push_str(if row == 0 { "" } else { ", " })
}

/// Adds the ascent and the descent of each row.
fn add_heights(alloc: Global, rows: &List<List<SpanCell>>, words: &mut String) -> Result<(), Fault>
    requires few { length rows.now ≤ 65_536 }
    requires spans { All (All HasSpan) rows.now }
    requires stored { All (All IsStored) rows.now }
{
    let own = own_heights(alloc, rows.as_slice())?;
    let made = span_heights(alloc, rows, &own);
    drop(own);
    let heights = made?;
    written(add_each_height(heights.as_slice(), words))
}

fn add_each_height(heights: &[RowHeight], words: &mut String) -> Result<(), AllocError> {
    if heights.is_empty() {
        return words.push('-');
    }
    for (row, height) in heights.iter().enumerate() {
        add_gap(row, words)?;
        write!(words, "{} {}", height.ascent, height.descent)?;
    }
    Ok(())
}

/// How high rows are by their own cells.
fn own_heights(alloc: Global, rows: &[List<SpanCell>]) -> Result<List<RowHeight>, Fault>
    requires { All (All IsStored) rows.now }
    ensures each { IfOk result (λ heights. length heights ≡ length rows.now) }
    ensures stored { IfOk result (All IsHeightStored) }
{
    let mut heights = List::make(alloc);
    for cells in rows {
        heights.push(own_height(alloc, cells.as_slice())?)?;
    }
    Ok(heights)
}

/// The same of one row.
fn own_height(alloc: Global, cells: &[SpanCell]) -> Result<RowHeight, Fault>
    requires { All IsStored cells.now }
    ensures { IfOk result IsHeightStored }
{
    rows_of_stored_cells_are_stored();
    let spans = spans_of(alloc, cells)?;
    Ok(row_height(spans.as_slice()))
}

/// How much cells span, and how high they are.
fn spans_of(alloc: Global, cells: &[SpanCell]) -> Result<List<CellSpan>, Fault>
    requires { All IsStored cells.now }
    ensures { IfOk result (All IsSpanStored) }
{
    let mut spans = List::make(alloc);
    for cell in cells {
        spans.push(cell.span)?;
    }
    Ok(spans)
}

/// Adds the slots of each row.
fn add_slots(
    alloc: Global,
    rows: &List<List<SpanCell>>,
    firsts: &List<List<u32>>,
    widths: &List<i64>,
    words: &mut String,
) -> Result<(), Fault>
    requires firsts { firsts.now ≡ first_columns_of rows.now }
    requires widths { widths.now ≡ span_columns_of rows.now firsts.now }
    requires few { length widths.now ≤ 2 ^ 22 }
    requires columns { All IsColumn widths.now }
{
    cells_stand_inside();
    words.push_str(if rows.is_empty() { "; -" } else { "; " })?;
    let along = firsts.as_slice();
    for (row, cells) in rows.as_slice().iter().enumerate() {
        add_gap(row, words)?;
        let slots = slots_of_row(alloc, cells, &along[row], widths)?;
        add_numbers(&slots, words)?;
    }
    Ok(())
}
