ghost use Rattle.std.specs.Prelude.{◌≡◌, ◌<◌, length, map, slice_index_or, IfOk};
ghost use Rattle.layout_model.specs.Tables.{cell_of_row, cells_of_row, cells_of_rows, has_spans, single};

use crate::outcome::Answer;
use crate::reply::Answered;
use fixed_units::{List, Memory};
use span_tables::{CellSpan, SpanCell};
use std::alloc::Global;

/// Whether some cell of a table spans more than its own place, by the answers of its rows.
pub fn has_spans<A: Answered>(rows: &[A]) -> bool
    ensures { result ≡ has_spans (map A.told rows.now) }
{
    for row in rows {
        if 0 < row.answer().spans.len() {
            return true;
        }
    }
    false
}

/// The cells of the rows of a table, by the answers of these.
pub fn cells_of_rows<A: Answered>(alloc: Global, rows: &[A]) -> Result<List<List<SpanCell>>, Memory>
    ensures { IfOk result (λ cells. cells ≡ cells_of_rows (map A.told rows.now)) }
{
    let mut cells = List::with_room(alloc, rows.len())?;
    for row in rows {
        cells.push(cells_of_row(alloc, row.answer())?)?;
    }
    Ok(cells)
}

/// The cells of one row.
fn cells_of_row(alloc: Global, row: &Answer) -> Result<List<SpanCell>, Memory>
    ensures { IfOk result (λ cells. cells ≡ cells_of_row row.now) }
{
    let mut cells = List::with_room(alloc, row.cells.len())?;
    for place in 0..row.cells.len() {
        cells.push(cell_of_row(row, place))?;
    }
    Ok(cells)
}

/// The cell at a place of a row.
fn cell_of_row(row: &Answer, place: usize) -> SpanCell
    requires { place < length row.now.cells }
    ensures { result ≡ cell_of_row row.now place }
{
    SpanCell {
        width: row.cells.as_slice()[place],
        span: span_at(row.spans.as_slice(), place),
    }
}

/// What the cell at a place spans: its own place alone, where that isn't told.
fn span_at(spans: &[CellSpan], place: usize) -> CellSpan
    ensures { result ≡ slice_index_or spans.now place single }
{
    match spans.get(place) {
        Some(span) => *span,
        None => SINGLE,
    }
}

/// A cell that spans its own place alone.
const SINGLE: CellSpan = CellSpan {
    columns: 1,
    rows: 1,
    ascent: 0,
    descent: 0,
};
