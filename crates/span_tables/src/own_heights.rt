ghost use Rattle.std.specs.Prelude.{◌≡◌};
ghost use Rattle.span_tables.specs.Heights.{ascents_of, descents_of, row_height_of};
ghost use Rattle.span_tables.specs.Largest.{larger_of, deeper_of};
ghost use Rattle.span_tables.specs.Widths.{largest};

use crate::largest::larger;
use crate::{CellSpan, RowHeight};

/// How high a row is by itself: as far up as its highest cell, and as far down as the deepest of
/// the cells that span no other row; without one, 0. What deeper cells lack, `span_heights` finds.
pub fn row_height(cells: &[CellSpan]) -> RowHeight
    ensures { result ≡ row_height_of cells.now }
{
    RowHeight {
        ascent: highest(cells).unwrap_or(0),
        descent: deepest(cells).unwrap_or(0),
    }
}

/// The largest ascent, where there is a cell.
fn highest(cells: &[CellSpan]) -> Option<i64>
    ensures { result ≡ largest (ascents_of cells.now) }
{
    let mut highest = None;
    for cell in cells {
        highest = higher(highest, cell);
    }
    highest
}

/// The same with one cell more.
fn higher(before: Option<i64>, cell: &CellSpan) -> Option<i64>
    ensures { result ≡ larger_of before cell.now.ascent }
{
    larger(before, cell.ascent)
}

/// The largest descent of the cells that span no other row, where there is one.
fn deepest(cells: &[CellSpan]) -> Option<i64>
    ensures { result ≡ largest (descents_of cells.now) }
{
    let mut deepest = None;
    for cell in cells {
        deepest = deeper(deepest, cell);
    }
    deepest
}

/// The same with one cell more.
fn deeper(before: Option<i64>, cell: &CellSpan) -> Option<i64>
    ensures { result ≡ deeper_of before cell.now }
{
    if cell.rows == 1 {
        larger(before, cell.descent)
    } else {
        before
    }
}
