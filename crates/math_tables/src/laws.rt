//! What holds of all tables.
//!
//! A law is proved where it is a contract, so each function here has one and computes nothing.
ghost use Rattle.std.specs.Prelude.{◌≡◌, ℕ, ◌<◌, ℤ, List, length, slice_get, Some};
ghost use Rattle.fixed_units.specs.declared.boxes.MathBox.{MathBox};
ghost use Rattle.font_metrics.specs.Metrics.{MetricsValue};
ghost use Rattle.math_tables.specs.Columns.{column_at, column_count, columns_of};
ghost use Rattle.math_tables.specs.Laws.{IsWidest, StandInColumns, StandInLines};
ghost use Rattle.math_tables.specs.Placing.{row_of_cells_of, table_frame_of, row_offsets_of};

/// A column is as wide as its widest cell.
pub fn columns_are_as_wide_as_their_widest_cells()
    ensures count { (rows : List (List ℤ)) → length (columns_of rows) ≡ column_count rows }
    ensures width { (rows : List (List ℤ)) (place : ℕ) (width : ℤ) →
        slice_get (columns_of rows) place ≡ Some width → IsWidest (column_at rows place) width }
{}

/// Each cell stands in the middle of its column, to the unit, and the columns side by side.
pub fn cells_stand_in_their_columns()
    ensures { (cells : List MathBox) (widths : List ℤ) (total : ℤ) → length widths ≡ length cells →
        StandInColumns cells widths (row_of_cells_of cells widths total) }
{}

/// The rows of a table stand one under the other, its middle lies on the axis, and it is as wide as
/// its columns together.
pub fn rows_stand_one_under_the_other()
    ensures { (m : MetricsValue) (rows : List MathBox) (widths : List ℤ) (size : ℤ) →
        StandInLines m rows widths size (table_frame_of m rows widths size)
        (row_offsets_of m rows size) }
{}
