ghost use Rattle.std.specs.Prelude.{◌≡◌, ◌<◌, ◌≤◌, length, map, false, true, IfOk};
ghost use Rattle.std.specs.List.{All, list_any};
ghost use Rattle.fixed_units.specs.Sums.{list_to};
ghost use Rattle.math_tables.specs.Placing.{HasHeights, IsColumn, most_columns};
ghost use Rattle.math_tree.specs.declared.kind.Kind.TheVariants.{Mtable};
ghost use Rattle.span_tables.specs.Heights.{IsHeightStored, height_at};
ghost use Rattle.layout_model.specs.Elements.{frame_at};
ghost use Rattle.layout_model.specs.Tables as tables;

use crate::element::Element;
use crate::table::frames;
use embellished::View;
use fixed_units::{List, MathBox, Memory};
use layout_model::{cells_of_rows, has_spans};
use math_tables::columns;
use span_tables::{
    CellSpan, MOST_COLUMNS, MOST_ROWS, RowHeight, first_columns, row_height, span_columns,
    span_heights, span_of,
};
use std::alloc::Global;

/// What the cells of a row span, where one of them spans more than its own place; else nothing.
#[tactic(auto, unfolding(layout_model::specs::Tables::spans_of))]
pub fn spans_of<V: View>(alloc: Global, e: &Element<V>) -> Result<List<CellSpan>, Memory>
    ensures { IfOk result (λ spans. spans ≡ tables.spans_of e.now) }
{
    let spans = cell_spans(alloc, e)?;
    if some_spans(spans.as_slice()) {
        Ok(spans)
    } else {
        Ok(List::make(alloc))
    }
}

/// What each cell of a row spans.
fn cell_spans<V: View>(alloc: Global, e: &Element<V>) -> Result<List<CellSpan>, Memory>
    ensures { IfOk result (λ spans. spans ≡ list_to (length e.now.seen.kids) (tables.cell_span
        e.now)) }
{
    let mut spans = List::with_room(alloc, e.count())?;
    for index in 0..e.count() {
        spans.push(cell_span(e, index))?;
    }
    Ok(spans)
}

/// What the cell at a place spans.
#[tactic(auto, unfolding(layout_model::specs::Tables::cell_span))]
fn cell_span<V: View>(e: &Element<V>, index: usize) -> CellSpan
    requires { index < length e.now.seen.kids }
    ensures { result ≡ tables.cell_span e.now index }
{
    let frame = e.frame(index);
    let attributes = &e.view().kid(index).attributes;
    CellSpan {
        columns: span_of(attributes.get("columnspan"), MOST_COLUMNS),
        rows: span_of(attributes.get("rowspan"), MOST_ROWS),
        ascent: frame.ascent,
        descent: frame.descent,
    }
}

/// Whether one of some cells spans more than its own place.
fn some_spans(spans: &[CellSpan]) -> bool
    ensures { result ≡ list_any tables.is_spanning spans.now }
{
    spans.iter().any(|span| 1 < span.columns || 1 < span.rows)
}

/// The box of a row whose cells span so: those over several rows don't count in its descent.
pub fn spanned(spans: &[CellSpan], frame: MathBox) -> MathBox
    ensures { result ≡ tables.spanned spans.now frame }
{
    if spans.is_empty() {
        return frame;
    }
    let height = row_height(spans);
    MathBox {
        ascent: height.ascent,
        descent: height.descent,
        ..frame
    }
}

/// The widths of a table's columns.
#[tactic(auto, unfolding(layout_model::specs::Tables::table_columns))]
pub fn table_columns<V: View>(alloc: Global, e: &Element<V>) -> Result<List<i64>, Memory>
    requires { e.now.seen.facts.laid ≡ Mtable }
    ensures value { IfOk result (λ widths. widths ≡ tables.table_columns e.now.kids) }
    ensures few { IfOk result (λ widths. length widths ≤ most_columns) }
    ensures within { IfOk result (All IsColumn) }
{
    // What holds of the element's children comes with their count.
    let _count = e.count();
    if has_spans(e.answers()) {
        spanned_columns(alloc, e)
    } else {
        plain_columns(alloc, e)
    }
}

/// Those of a table in which a cell spans.
fn spanned_columns<V: View>(alloc: Global, e: &Element<V>) -> Result<List<i64>, Memory>
    requires { e.now.seen.facts.laid ≡ Mtable }
    ensures value { IfOk result (λ widths. widths ≡ tables.spanned_columns e.now.kids) }
    ensures few { IfOk result (λ widths. length widths ≤ most_columns) }
    ensures within { IfOk result (All IsColumn) }
{
    // What holds of the element's children comes with their count.
    let _count = e.count();
    let cells = cells_of_rows(alloc, e.answers())?;
    let firsts = first_columns(alloc, &cells)?;
    span_columns(alloc, &cells, &firsts)
}

/// Those of one in which no cell does.
fn plain_columns<V: View>(alloc: Global, e: &Element<V>) -> Result<List<i64>, Memory>
    ensures { IfOk result (λ widths. widths ≡ tables.columns_over e.now.kids) }
{
    let mut cells = List::with_room(alloc, e.count())?;
    for row in e.answers() {
        cells.push(row.cells.copy(alloc)?)?;
    }
    columns(alloc, &cells)
}

/// The boxes of a table's rows, as high as they are in it.
#[tactic(auto, unfolding(layout_model::specs::Tables::table_rows))]
pub fn table_rows<V: View>(alloc: Global, e: &Element<V>) -> Result<List<MathBox>, Memory>
    requires { e.now.seen.facts.laid ≡ Mtable }
    ensures value { IfOk result (λ rows. rows ≡ tables.table_rows e.now.kids) }
    ensures few { IfOk result (λ rows. length rows ≤ 65_536) }
    ensures within { IfOk result (All HasHeights) }
{
    // What holds of the element's children comes with their count.
    let _count = e.count();
    if has_spans(e.answers()) {
        spanned_rows(alloc, e)
    } else {
        frames(alloc, e)
    }
}

/// Those of a table in which a cell spans: the last row under each cell over several ones is as
/// deep as that cell needs.
fn spanned_rows<V: View>(alloc: Global, e: &Element<V>) -> Result<List<MathBox>, Memory>
    ensures value { IfOk result (λ rows. rows ≡ list_to (length e.now.kids) (tables.spanned_row
        e.now.kids)) }
    ensures within { IfOk result (All HasHeights) }
{
    // What holds of the element's children comes with their count.
    let _count = e.count();
    let cells = cells_of_rows(alloc, e.answers())?;
    let own = heights(alloc, e)?;
    let heights = span_heights(alloc, &cells, &own)?;
    with_heights(alloc, e, heights.as_slice())
}

/// The heights of the rows of a table by themselves.
fn heights<V: View>(alloc: Global, e: &Element<V>) -> Result<List<RowHeight>, Memory>
    ensures value { IfOk result (λ heights. heights ≡ map (λ row. tables.height_of_row row.frame)
        e.now.kids) }
    ensures stored { IfOk result (All IsHeightStored) }
{
    let mut heights = List::with_room(alloc, e.count())?;
    for index in 0..e.count() {
        let frame = e.frame(index);
        heights.push(RowHeight {
            ascent: frame.ascent,
            descent: frame.descent,
        })?;
    }
    Ok(heights)
}

/// The boxes of the rows of a table with these heights.
fn with_heights<V: View>(
    alloc: Global,
    e: &Element<V>,
    heights: &[RowHeight],
) -> Result<List<MathBox>, Memory>
    ensures { IfOk result (λ rows. rows ≡ list_to (length e.now.kids)
        (λ index. tables.with_height (frame_at e.now index) (height_at heights.now index))) }
{
    let mut rows = List::with_room(alloc, e.count())?;
    for index in 0..e.count() {
        rows.push(with_height(e.frame(index), heights, index))?;
    }
    Ok(rows)
}

/// A box with the height at a place.
fn with_height(frame: MathBox, heights: &[RowHeight], index: usize) -> MathBox
    ensures { result ≡ tables.with_height frame (height_at heights.now index) }
{
    let height = match heights.get(index) {
        Some(height) => *height,
        None => NO_HEIGHT,
    };
    MathBox {
        ascent: height.ascent,
        descent: height.descent,
        ..frame
    }
}

const NO_HEIGHT: RowHeight = RowHeight {
    ascent: 0,
    descent: 0,
};
