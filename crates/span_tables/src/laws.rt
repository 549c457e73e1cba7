//! What holds of all tables.
//!
//! A law is proved where it is a contract, so each function here has one and computes nothing.
ghost use Rattle.std.specs.Prelude.{◌≡◌, ℕ, ◌+◌, ◌*◌, ◌^◌, ◌<◌, ◌≤◌, ◌+ℤ◌, ◌≤ℤ◌, pos, ℤ, List, length, map};
ghost use Rattle.std.specs.List.{All};
ghost use Rattle.math_tables.specs.Columns.{columns_of};
ghost use Rattle.math_tables.specs.Placing.{table_width_of};
ghost use Rattle.span_tables.specs.declared.cells.CellSpan.{CellSpan};
ghost use Rattle.span_tables.specs.declared.cells.RowHeight.{RowHeight};
ghost use Rattle.span_tables.specs.declared.cells.SpanCell.{SpanCell};
ghost use Rattle.fixed_units.specs.Numbers.{IsWithin};
ghost use Rattle.span_tables.specs.Bounds.{HasSpan, IsSpanStored, IsStored, most_cells, most_columns, cell_count};
ghost use Rattle.span_tables.specs.Heights.{row_height_of, span_heights_of, IsHeightStored};
ghost use Rattle.span_tables.specs.Laws.{StandWhereFree, Fits, FitsBelow, IsSingle, cells_at, cell_at, firsts_at, slots_at, slots_total, slot_width, counted, widths_of};
ghost use Rattle.span_tables.specs.Slots.{slots_of, AreInside};
ghost use Rattle.span_tables.specs.Standing.{stand_rows, first_columns_of};
ghost use Rattle.span_tables.specs.Widths.{width_over, shared, span_columns_of};

/// Each cell begins in the least column that is after its predecessor's last one and that no cell
/// of an earlier row covers. So none begins under a cell of an earlier row.
pub fn cells_stand_where_columns_are_free()
    ensures { (rows : List (List SpanCell)) → StandWhereFree rows (first_columns_of rows) }
{}

/// The columns of a cell are columns of the table, and a table has at most 64 for each cell.
pub fn cells_stand_inside()
    ensures inside { (rows : List (List SpanCell)) (row : ℕ) → row < length rows →
        AreInside (length (span_columns_of rows (first_columns_of rows))) (cells_at rows row)
        (firsts_at (first_columns_of rows) row) }
    ensures few { (rows : List (List SpanCell)) → All (All HasSpan) rows →
        length (span_columns_of rows (first_columns_of rows)) ≤ most_columns * cell_count rows }
{}

/// No cell is wider than the columns that it covers, and what a cell lacks makes these as wide as
/// it.
pub fn cells_fit_their_columns()
    ensures fits { (rows : List (List SpanCell)) → All (All HasSpan) rows →
        All (Fits (span_columns_of rows (first_columns_of rows)))
        (stand_rows 0 rows (first_columns_of rows)) }
    ensures sum { (widths : List ℤ) (first count lack : ℕ) →
        1 ≤ count → first + count ≤ length widths →
        width_over (shared widths first count lack) first count
        ≡ width_over widths first count +ℤ pos lack }
{}

/// No cell is wider than its slot.
pub fn cells_fit_their_slots()
    ensures { (rows : List (List SpanCell)) (row place : ℕ) → All (All HasSpan) rows →
        row < length rows → place < length (cells_at rows row) →
        (cell_at rows row place).width ≤ℤ slot_width (slots_at rows row) place }
{}

/// The slots of a row have all columns for their width: that of the table.
pub fn slots_have_the_width_of_the_table()
    ensures { (cells : List SpanCell) (firsts : List ℕ) (widths : List ℤ) →
        slots_total (slots_of cells firsts widths) ≡ table_width_of widths }
{}

/// Where the cells of a table can be stored, the slots of its rows lie within 2^60 units.
pub fn slots_lie_within_reach()
    ensures { (rows : List (List SpanCell)) (row : ℕ) → All (All HasSpan) rows →
        All (All IsStored) rows → cell_count rows ≤ most_cells →
        All (IsWithin (2 ^ 60)) (slots_at rows row) }
{}

/// The slots of a row are one number for the whole table, and two for each of its cells.
pub fn a_slot_is_two_numbers()
    ensures { (rows : List (List SpanCell)) (row : ℕ) →
        length (slots_at rows row) ≡ 1 + 2 * length (cells_at rows row) }
{}

/// The heights of a row whose cells can be stored can be stored.
pub fn rows_of_stored_cells_are_stored()
    ensures { (cells : List CellSpan) → All IsSpanStored cells →
        IsHeightStored (row_height_of cells) }
{}

/// No cell over several rows is deeper than the rows that it covers.
pub fn cells_fit_their_rows()
    ensures { (rows : List (List SpanCell)) (heights : List RowHeight) (row place : ℕ) →
        length heights ≡ length rows → row < length rows → place < length (cells_at rows row) →
        FitsBelow (span_heights_of rows heights) row (cell_at rows row place) }
{}

/// Without spanning cells the columns are 0, 1, 2 and so on, as wide as those of a plain table, and
/// rows stay as high as they are.
pub fn single_cells_make_plain_tables()
    ensures firsts { (rows : List (List SpanCell)) → All (All IsSingle) rows →
        first_columns_of rows ≡ map (λ cells. counted 0 (length cells)) rows }
    ensures widths { (rows : List (List SpanCell)) → All (All IsSingle) rows →
        span_columns_of rows (first_columns_of rows) ≡ columns_of (widths_of rows) }
    ensures heights { (rows : List (List SpanCell)) (heights : List RowHeight) →
        All (All IsSingle) rows →
        span_heights_of rows heights ≡ heights }
{}
