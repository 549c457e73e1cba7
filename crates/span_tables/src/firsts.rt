ghost use Rattle.std.specs.Prelude.{◌≡◌, ◌+◌, ◌*◌, ◌^◌, ◌-◌, ◌≤◌, ◌<◌, ◌++◌, length, replicate, IfOk, OnOk};
ghost use Rattle.std.specs.List.{All};
ghost use Rattle.span_tables.specs.Bounds.{HasSpan, most_columns, most_rows, most_cells, cell_count};
ghost use Rattle.span_tables.specs.Coverage.{free, untils, taken_by, IsEnd, lengthened, raised_of, IsSound, IsRaised, IsCovered, IsRowDone};
ghost use Rattle.span_tables.specs.Standing.{IsLeastFree, first_columns_of};

use crate::SpanCell;
use fixed_units::{List, Memory};
use std::alloc::Global;

/// The first column of each cell, row by row: the least one that is after the cell before it and
/// that no cell of an earlier row covers.
pub fn first_columns(alloc: Global, rows: &List<List<SpanCell>>) -> Result<List<List<u32>>, Memory>
    requires few_rows { length rows.now ≤ 65_536 }
    requires few_cells { cell_count rows.now ≤ most_cells }
    requires spans { All (All HasSpan) rows.now }
    ensures { IfOk result (λ firsts. firsts ≡ first_columns_of rows.now) }
{
    let mut firsts = List::make(alloc);
    let mut covers = Vec::new(alloc);
    for (row, cells) in rows.as_slice().iter().enumerate() {
        let along = row_firsts(alloc, cells.as_slice(), row as u32, &mut covers)?;
        firsts.push(along)?;
    }
    Ok(firsts)
}

/// For one column: the first row in which it is free again, and where the cell ends that covers it
/// until then. All columns from this one up to that end stay covered as long as it.
#[derive(Clone, Copy)]
struct Cover {
    until: u32,
    end: u32,
}

/// A column that no cell covers.
const FREE: Cover = Cover { until: 0, end: 0 };

/// The first columns of the cells of one row. `covers` tells how the rows before cover columns; and
/// afterwards how these do with this row.
fn row_firsts(
    alloc: Global,
    cells: &[SpanCell],
    row: u32,
    covers: &mut Vec<Cover>,
) -> Result<List<u32>, Memory>
    requires row_in { row < 65_536 }
    requires room { length covers.old.items + most_columns * length cells.now
        ≤ most_columns * most_cells }
    requires spans { All HasSpan cells.now }
    requires sound { IsSound covers.old.items }
    ensures done { IfOk result
        (λ firsts. IsRowDone row cells.now (untils covers.old.items) (untils covers.new.items)
        firsts) }
    ensures sound { OnOk result (IsSound covers.new.items) }
{
    let mut firsts = List::make(alloc);
    let mut from = 0;
    for cell in cells {
        let first = first_free(covers, row, from);
        from = first + cell.span.columns as usize;
        cover_columns(covers, first, from, row + cell.span.rows)?;
        firsts.push(first as u32)?;
    }
    Ok(firsts)
}

/// The first column from `from` on that is free in a row; behind all columns one is. It goes from
/// cell to cell, and not from column to column, and lengthens the way for the next search.
fn first_free(covers: &mut Vec<Cover>, row: u32, from: usize) -> usize
    requires from_in { from ≤ length covers.old.items }
    requires sound { IsSound covers.old.items }
    ensures least { IsLeastFree (taken_by (untils covers.old.items) row) from result }
    ensures high { result ≤ length covers.old.items }
    ensures same { untils covers.new.items ≡ untils covers.old.items }
    ensures sound { IsSound covers.new.items }
{
    let mut column = from;
    while column < covers.len() && row < covers[column].until {
        let end = longer(covers.as_slice(), column);
        lengthen(covers, column, end);
        column = end as usize;
    }
    column
}

/// A column up to which all stay covered as long as one: the end that is kept with it, or even that
/// of the column there.
fn longer(covers: &[Cover], column: usize) -> u32
    requires column_in { column < length covers.now }
    requires sound { IsSound covers.now }
    ensures { IsEnd covers.now column result }
{
    let here = covers[column];
    let next = here.end as usize;
    if next < covers.len() && here.until <= covers[next].until {
        covers[next].end
    } else {
        here.end
    }
}

/// Keeps another end with a column.
fn lengthen(covers: &mut Vec<Cover>, column: usize, end: u32)
    requires { column < length covers.old.items }
    ensures { covers.new.items ≡ lengthened covers.old.items column end }
{
    covers[column].end = end;
}

/// Covers the columns from `first` to before `end`, up to before a row, and adds columns as needed.
fn cover_columns(covers: &mut Vec<Cover>, first: usize, end: usize, row: u32) -> Result<(), Memory>
    requires order { first ≤ end }
    requires end_in { end ≤ 2 ^ 23 }
    requires from_in { first ≤ length covers.old.items }
    requires sound { IsSound covers.old.items }
    ensures covered { OnOk result
        (IsCovered (untils covers.old.items) (untils covers.new.items) first end row) }
    ensures sound { OnOk result (IsSound covers.new.items) }
{
    add_columns(covers, end)?;
    raise(covers.as_mut_slice(), first, end, row);
    Ok(())
}

/// Adds free columns up to `end`, where there are fewer.
fn add_columns(covers: &mut Vec<Cover>, end: usize) -> Result<(), Memory>
    ensures { OnOk result (covers.new.items
        ≡ covers.old.items ++ replicate (end - length covers.old.items) free) }
{
    if covers.len() < end {
        covers.resize(end, FREE)?;
    }
    Ok(())
}

/// Covers columns that are there.
fn raise(covers: &mut [Cover], first: usize, end: usize, row: u32)
    requires order { first ≤ end }
    requires end_in { end ≤ 2 ^ 23 }
    requires room { end ≤ length covers.old }
    ensures { IsRaised covers.old covers.new first end row }
{
    for column in first..end {
        covers[column] = raised(covers[column], row, end as u32);
    }
}

/// What covers a column the longer.
fn raised(before: Cover, row: u32, end: u32) -> Cover
    ensures { result ≡ raised_of before row end }
{
    if before.until < row {
        Cover { until: row, end }
    } else {
        before
    }
}
