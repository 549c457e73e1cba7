ghost use Rattle.std.specs.Prelude.{◌≡◌, ◌^◌, ◌≤◌, [], length, map, IfOk};
ghost use Rattle.std.specs.List.{All};
ghost use Rattle.fixed_units.specs.Numbers.{IsWithin};
ghost use Rattle.span_tables.specs.Bounds.{HasSpan, IsStored, most_cells, cell_count};
ghost use Rattle.span_tables.specs.Standing.{end_of, reach, first_columns_of};
ghost use Rattle.span_tables.specs.Widths.{base_widths_of, widened_all, span_columns_of, IsColumn};
ghost use Rattle.span_tables.specs.Largest.{IsLargestAlone, widened_one, or_zero_of, IsStandingStored};

use crate::SpanCell;
use crate::largest::larger;
use crate::sharing::widen_by;
use crate::standing::{Standing, stand_all};
use fixed_units::{List, Memory};
use std::alloc::Global;

/// The widths of the columns: at first those of their widest cells, and then as much more as the
/// cells over several columns lack.
pub fn span_columns(
    alloc: Global,
    rows: &List<List<SpanCell>>,
    firsts: &List<List<u32>>,
) -> Result<List<i64>, Memory>
    requires few_rows { length rows.now ≤ 65_536 }
    requires few_cells { cell_count rows.now ≤ most_cells }
    requires spans { All (All HasSpan) rows.now }
    requires stored { All (All IsStored) rows.now }
    requires firsts { firsts.now ≡ first_columns_of rows.now }
    ensures value { IfOk result (λ widths. widths ≡ span_columns_of rows.now firsts.now) }
    ensures few { IfOk result (λ widths. length widths ≤ 2 ^ 22) }
    ensures within { IfOk result (λ widths. All IsColumn widths) }
{
    let cells = stand_all(alloc, rows.as_slice(), firsts.as_slice())?;
    let mut widths = base_widths(alloc, cells.as_slice())?;
    widen_all(widths.as_mut_slice(), cells.as_slice());
    Ok(List::from(widths))
}

/// Gives each cell over several columns, in document order, what it lacks.
fn widen_all(widths: &mut [i64], cells: &[Standing])
    requires columns { All IsColumn widths.old }
    requires cells { All IsStandingStored cells.now }
    requires inside { reach cells.now ≤ length widths.old }
    ensures value { widths.new ≡ widened_all widths.old cells.now }
    ensures columns { All IsColumn widths.new }
{
    for at in cells {
        widen_by(widths, at);
    }
}

/// The largest width of the cells that span a column alone, column by column; without one, 0.
fn base_widths(alloc: Global, cells: &[Standing]) -> Result<Vec<i64>, Memory>
    ensures { IfOk result (λ widths. widths.items ≡ base_widths_of cells.now) }
{
    let largest = largest_alone(alloc, cells)?;
    or_zero(alloc, largest.as_slice())
}

/// The widths themselves, with 0 where there is none.
fn or_zero(alloc: Global, largest: &[Option<i64>]) -> Result<Vec<i64>, Memory>
    ensures { IfOk result (λ widths. widths.items ≡ map or_zero_of largest.now) }
{
    let mut widths = Vec::new(alloc);
    for width in largest {
        widths.push(width.unwrap_or(0))?;
    }
    Ok(widths)
}

/// For each column the largest width of the cells that span it alone, where there is one.
fn largest_alone(alloc: Global, cells: &[Standing]) -> Result<Vec<Option<i64>>, Memory>
    ensures value { IfOk result (λ largest. IsLargestAlone largest.items cells.now) }
    ensures count { IfOk result (λ largest. length largest.items ≡ reach cells.now) }
{
    let mut largest = Vec::new(alloc);
    largest.resize(column_count(cells), None)?;
    widen_alone(largest.as_mut_slice(), cells);
    Ok(largest)
}

/// How many columns the cells reach.
fn column_count(cells: &[Standing]) -> usize
    ensures { result ≡ reach cells.now }
{
    let mut count = 0;
    for at in cells {
        count = count.max(at.column as usize + at.cell.span.columns as usize);
    }
    count
}

/// Widens columns to the cells that span them alone.
fn widen_alone(largest: &mut [Option<i64>], cells: &[Standing])
    requires inside { reach cells.now ≤ length largest.old }
    requires none { IsLargestAlone largest.old [] }
    ensures value { IsLargestAlone largest.new cells.now }
    ensures count { length largest.new ≡ length largest.old }
{
    for at in cells {
        widen_one(largest, at);
    }
}

/// The same with one cell more.
fn widen_one(largest: &mut [Option<i64>], at: &Standing)
    requires { end_of at.now ≤ length largest.old }
    ensures { largest.new ≡ widened_one largest.old at.now }
{
    if at.cell.span.columns == 1 {
        let column = at.column as usize;
        largest[column] = larger(largest[column], at.cell.width);
    }
}
