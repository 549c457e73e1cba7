//! How the cells of a table are read that may span columns and rows.
ghost use Rattle.std.specs.Prelude.{◌≤◌, length, IfOk};
ghost use Rattle.std.specs.List.{All};
ghost use Rattle.span_tables.specs.Bounds.{HasSpan, IsSpan, IsSpanStored, IsStored, cell_count, most_cells};

use crate::values::numbers::{items_in, items_of, stored};
use case_format::{Fault, Fields};
use fixed_units::List;
use serde_json::Value;
use span_tables::{CellSpan, MOST_COLUMNS, MOST_ROWS, SpanCell};
use std::alloc::Global;

/// The most cells that a table has.
const MOST_CELLS: usize = 65_536;

/// The rows of the key `rows`, which have no more cells together than a table may have.
pub fn rows_in(alloc: Global, fields: Fields) -> Result<List<List<SpanCell>>, Fault>
    ensures few_rows { IfOk result (λ rows. length rows ≤ 65_536) }
    ensures few_cells { IfOk result (λ rows. cell_count rows ≤ most_cells) }
    ensures spans { IfOk result (All (All HasSpan)) }
    ensures stored { IfOk result (All (All IsStored)) }
{
    let items = items_in(fields, "rows")?;
    let mut rows = List::make(alloc);
    let mut left = MOST_CELLS;
    for item in items {
        let cells = cells_in(alloc, item)?;
        if left < cells.len() {
            return Err(Fault::out_of_range("rows"));
        }
        left -= cells.len();
        rows.push(cells)?;
    }
    Ok(rows)
}

/// The cells of a row.
fn cells_in(alloc: Global, row: &Value) -> Result<List<SpanCell>, Fault>
    ensures spans { IfOk result (All HasSpan) }
    ensures stored { IfOk result (All IsStored) }
{
    let items = items_of("rows", row)?;
    let mut cells = List::make(alloc);
    for item in items {
        cells.push(cell_of(item)?)?;
    }
    Ok(cells)
}

/// A cell: its width, how many columns and rows it spans, its ascent and its descent.
fn cell_of(value: &Value) -> Result<SpanCell, Fault>
    ensures span { IfOk result HasSpan }
    ensures stored { IfOk result IsStored }
{
    let parts = value.as_array().ok_or(Fault::wrong_type("rows"))?;
    let [width, columns, rows, ascent, descent] = parts.as_slice() else {
        return Err(Fault::wrong_type("rows"));
    };
    Ok(SpanCell {
        width: stored("rows", width)?,
        span: span_in(columns, rows, ascent, descent)?,
    })
}

/// How many columns and rows a cell spans, and how high it is.
fn span_in(
    columns: &Value,
    rows: &Value,
    ascent: &Value,
    descent: &Value,
) -> Result<CellSpan, Fault>
    ensures span { IfOk result IsSpan }
    ensures stored { IfOk result IsSpanStored }
{
    Ok(CellSpan {
        columns: count_in(columns, MOST_COLUMNS)?,
        rows: count_in(rows, MOST_ROWS)?,
        ascent: stored("rows", ascent)?,
        descent: stored("rows", descent)?,
    })
}

/// A number from 1 to the most.
fn count_in(value: &Value, most: u32) -> Result<u32, Fault>
    ensures { IfOk result (λ count. (1 ≤ count) × (count ≤ most)) }
{
    let count = value.as_i64().ok_or(Fault::wrong_type("rows"))?;
    match u32::try_from(count) {
        Ok(count) if 1 <= count && count <= most => Ok(count),
        _ => Err(Fault::out_of_range("rows")),
    }
}
