ghost use Rattle.std.specs.Prelude.{◌≡◌, ◌≤◌, ◌++◌, length, IfOk, OnOk};
ghost use Rattle.span_tables.specs.Standing.{stand, stand_rows, IsOneEach};

use crate::SpanCell;
use fixed_units::{List, Memory};
use std::alloc::Global;

/// A cell with the row and the column that it begins in.
#[derive(Clone, Copy)]
pub struct Standing {
    pub row: u32,
    pub column: u32,
    pub cell: SpanCell,
}

/// The cells of a table in document order.
pub fn stand_all(
    alloc: Global,
    rows: &[List<SpanCell>],
    firsts: &[List<u32>],
) -> Result<Vec<Standing>, Memory>
    requires few { length rows.now ≤ 65_536 }
    requires each { IsOneEach rows.now firsts.now }
    ensures { IfOk result (λ cells. cells.items ≡ stand_rows 0 rows.now firsts.now) }
{
    let mut all = Vec::new(alloc);
    for (row, cells) in rows.iter().enumerate() {
        stand_row(
            &mut all,
            row as u32,
            cells.as_slice(),
            firsts[row].as_slice(),
        )?;
    }
    Ok(all)
}

/// Adds the cells of a row.
fn stand_row(
    all: &mut Vec<Standing>,
    row: u32,
    cells: &[SpanCell],
    firsts: &[u32],
) -> Result<(), Memory>
    requires { length firsts.now ≡ length cells.now }
    ensures { OnOk result (all.new.items ≡ all.old.items ++ stand row cells.now firsts.now) }
{
    for (place, cell) in cells.iter().enumerate() {
        all.push(Standing {
            row,
            column: firsts[place],
            cell: *cell,
        })?;
    }
    Ok(())
}
