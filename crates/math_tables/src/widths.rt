ghost use Rattle.std.specs.Prelude.{◌≡◌, length, IfOk, slice_index_or, pos};
ghost use Rattle.math_tables.specs.Columns.{widened, widened_at, columns_of};

use fixed_units::{List, Memory};
use std::alloc::Global;

/// The widths of a table's columns, from the widths of the cells of each row: a column is as wide
/// as its widest cell, and there are as many as the longest row has cells.
pub fn columns(alloc: Global, rows: &List<List<i64>>) -> Result<List<i64>, Memory>
    ensures { IfOk result (λ widths. widths ≡ columns_of rows.now) }
{
    let mut widths = Vec::new(alloc);
    for row in rows.as_slice() {
        widths = widen(widths, row.as_slice())?;
    }
    Ok(List::from(widths))
}

/// Widens columns to the cells of one more row, and adds a column for each cell past the last one.
fn widen(columns: Vec<i64>, row: &[i64]) -> Result<Vec<i64>, Memory>
    ensures { IfOk result (λ widths. widths.items ≡ widened columns.items row.now) }
{
    let mut widths = columns;
    for (place, cell) in row.iter().enumerate() {
        widths = widen_at(widths, place, *cell)?;
    }
    Ok(widths)
}

/// Widens the column at a place to a cell, or adds it behind the last one.
fn widen_at(columns: Vec<i64>, place: usize, cell: i64) -> Result<Vec<i64>, Memory>
    ensures { IfOk result (λ widths. widths.items ≡ widened_at columns.items place cell) }
{
    let mut widths = columns;
    if place < widths.len() {
        widths[place] = widths[place].max(cell);
    } else {
        widths.push(cell)?;
    }
    Ok(widths)
}
