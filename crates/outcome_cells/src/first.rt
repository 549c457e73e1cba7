ghost use Rattle.std.specs.Prelude.{◌≡◌, ⊤, ℤ};
ghost use Rattle.outcome_cells.specs.Cells.{IsMarkHeld, IsOffsetHeld, IsSpanHeld, frame_numbers, mark_numbers, offset_numbers, own_number, span_numbers};
ghost use Rattle.outcome_cells.specs.Reading.{BeginsWith, BeginsWithList, IsFirst, IsFirstList};

use crate::items::{built_in, frame_in, glyph_in, number_in, offset_in, rule_in, span_in};
use box_pool::Cell;
use fixed_units::MathBox;
use font_metrics::Mark;
use layout_model::Offset;
use span_tables::CellSpan;

/// The number that some cells begin with, and the cells after it.
pub fn first_number(cells: &[Cell]) -> (i64, &[Cell])
    requires { BeginsWith own_number (λ _. ⊤) cells.now }
    ensures { IsFirst own_number cells.now result.0 result.1.now }
{
    (number_in(cells, 0), &cells[1..])
}

/// The box that some cells begin with, and the cells after it.
pub fn first_frame(cells: &[Cell]) -> (MathBox, &[Cell])
    requires { BeginsWith frame_numbers (λ _. ⊤) cells.now }
    ensures { IsFirst frame_numbers cells.now result.0 result.1.now }
{
    (frame_in(cells), &cells[7..])
}

/// What a cell spans, where some cells begin with that, and the cells after it.
pub fn first_span(cells: &[Cell]) -> (CellSpan, &[Cell])
    requires { BeginsWith span_numbers IsSpanHeld cells.now }
    ensures { IsFirst span_numbers cells.now result.0 result.1.now }
{
    (span_in(cells), &cells[4..])
}

/// The offset that some cells begin with, and the cells after it.
pub fn first_offset(cells: &[Cell]) -> (Offset, &[Cell])
    requires { BeginsWith offset_numbers IsOffsetHeld cells.now }
    ensures { IsFirst offset_numbers cells.now result.0 result.1.now }
{
    (offset_in(cells), &cells[3..])
}

/// The mark that some cells begin with, and the cells after it.
pub fn first_mark(cells: &[Cell]) -> (Mark, &[Cell])
    requires { BeginsWith mark_numbers IsMarkHeld cells.now }
    ensures { IsFirst mark_numbers cells.now result.0 result.1.now }
{
    let kind = number_in(cells, 0);
    if kind == 0 {
        (glyph_in(cells), &cells[5..])
    } else if kind == 1 {
        (rule_in(cells), &cells[5..])
    } else {
        (built_in(cells), &cells[8..])
    }
}

/// The cells of the items of a list that some cells begin with, of which each has so many, and the
/// cells after them.
pub fn first_list(cells: &[Cell], size: usize) -> (&[Cell], &[Cell])
    requires { BeginsWithList size cells.now }
    ensures { IsFirstList size cells.now result.0.now result.1.now }
{
    let count = number_in(cells, 0) as usize;
    let end = 1 + count * size;
    (&cells[1..end], &cells[end..])
}
