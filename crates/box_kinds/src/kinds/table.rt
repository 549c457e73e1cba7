//! `cell`, `columns`, `row_of_cells`, `row_of_slots`, `table_finish`: the parts of a table.
ghost use Rattle.std.specs.Prelude.{◌≤◌, length, IfOk};
ghost use Rattle.std.specs.List.{All};
ghost use Rattle.fixed_units.specs.Boxes.{IsStored, farthest};
ghost use Rattle.fixed_units.specs.Numbers.{IsWithin};

use crate::kinds::row::add_row;
use crate::values::{
    ByMetrics, add_numbers, boxes_in, items_in, items_of, numbers_in, size_in, stored, wide_box,
};
use case_format::{Case, Fault, Fields, add_box, written};
use fixed_units::{List, MathBox};
use font_metrics::Metrics;
use math_tables::{cell, cell_start, columns, row_of_cells, row_of_slots, table_finish};
use row_stretch::Row;
use serde_json::Value;
use std::alloc::Global;
use std::fmt::Write;

/// The kind `cell`.
pub struct OfCell;

impl ByMetrics for OfCell {
    fn keys() -> &'static [&'static str] {
        &["metrics", "row", "size"]
    }

    fn add_answer(
        _alloc: Global,
        metrics: &Metrics,
        fields: Fields,
        words: &mut String,
    ) -> Result<(), Fault> {
        let row = wide_box(fields, "row")?;
        let size = size_in(fields)?;
        add_box(&cell(&row, size, metrics), words)?;
        let start = cell_start(size);
        written(write!(words, "; {start}"))
    }
}

/// Adds the answer of a case of `columns`.
pub fn answer_columns(case: Case, words: &mut String) -> Result<(), Fault> {
    let fields = Fields::of_value(case.value, &["rows"])?;
    let rows = rows_of_widths(case.alloc, fields)?;
    let made = columns(case.alloc, &rows);
    // Dropped by a call, here and below, so that the `?` that follows doesn't drop it.
    drop(rows);
    let widths = made?;
    written(add_numbers(&widths, words))
}

/// The widths of the cells of each row.
fn rows_of_widths(alloc: Global, fields: Fields) -> Result<List<List<i64>>, Fault> {
    let items = items_in(fields, "rows")?;
    let mut rows = List::make(alloc);
    for row in items {
        rows.push(widths_of(alloc, row)?)?;
    }
    Ok(rows)
}

/// The widths of a row's cells.
fn widths_of(alloc: Global, row: &Value) -> Result<List<i64>, Fault> {
    let items = items_of("rows", row)?;
    let mut widths = List::make(alloc);
    for item in items {
        widths.push(stored("rows", item)?)?;
    }
    Ok(widths)
}

/// By what the cells of a row are placed.
#[derive(Clone, Copy)]
pub enum Across {
    Columns,
    Slots,
}

impl Across {
    /// The key of the numbers by which they are placed.
    fn key(self) -> &'static str {
        match self {
            Across::Columns => "widths",
            Across::Slots => "slots",
        }
    }
}

/// Adds the answer of a case of `row_of_cells` or `row_of_slots`.
pub fn answer_row(across: Across, case: Case, words: &mut String) -> Result<(), Fault> {
    let key = across.key();
    let fields = Fields::of_value(case.value, &["cells", key, "total"])?;
    let cells = boxes_in(case.alloc, fields, "cells")?;
    let numbers = numbers_in(case.alloc, fields, key)?;
    let made = row_across(across, case.alloc, fields, &cells, &numbers);
    drop(numbers);
    drop(cells);
    let row = made?;
    written(add_row(&row.frame, &row.offsets, words))
}

/// A row of cells that is as wide as the key `total` says.
fn row_across(
    across: Across,
    alloc: Global,
    fields: Fields,
    cells: &List<MathBox>,
    numbers: &List<i64>,
) -> Result<Row, Fault>
    requires few { length cells.now ≤ 65_536 }
    requires cells { All IsStored cells.now }
    requires numbers { All (IsWithin farthest) numbers.now }
{
    let counts_agree = match across {
        Across::Columns => numbers.len() == cells.len(),
        Across::Slots => numbers.len() == 2 * cells.len(),
    };
    if !counts_agree {
        return Err(Fault::out_of_range(across.key()));
    }
    let total = fields.number("total")?;
    let made = match across {
        Across::Columns => row_of_cells(alloc, cells, numbers, total),
        Across::Slots => row_of_slots(alloc, cells, numbers.as_slice(), total),
    };
    Ok(made?)
}

/// The kind `table_finish`.
pub struct OfTableFinish;

impl ByMetrics for OfTableFinish {
    fn keys() -> &'static [&'static str] {
        &["metrics", "rows", "widths", "size"]
    }

    fn add_answer(
        alloc: Global,
        metrics: &Metrics,
        fields: Fields,
        words: &mut String,
    ) -> Result<(), Fault> {
        let rows = boxes_in(alloc, fields, "rows")?;
        let widths = numbers_in(alloc, fields, "widths")?;
        let made = finished(alloc, metrics, fields, &rows, &widths);
        drop(widths);
        drop(rows);
        let (frame, offsets) = made?;
        written(add_row(&frame, &offsets, words))
    }
}

/// The box of a table, and where its rows stand.
fn finished(
    alloc: Global,
    metrics: &Metrics,
    fields: Fields,
    rows: &List<MathBox>,
    widths: &List<i64>,
) -> Result<(MathBox, List<i64>), Fault>
    requires few_rows { length rows.now ≤ 65_536 }
    requires few_columns { length widths.now ≤ 65_536 }
    requires rows { All IsStored rows.now }
    requires widths { All (IsWithin farthest) widths.now }
{
    let size = size_in(fields)?;
    Ok(table_finish(alloc, rows, widths, size, metrics)?)
}
