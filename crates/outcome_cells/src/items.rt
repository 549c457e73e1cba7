ghost use Rattle.std.specs.Prelude.{◌≡◌, ◌<◌, ◌≤◌, ◌^◌, length};
ghost use Rattle.outcome_cells.specs.Reading.{IsCount, axis_of, built_in, frame_in, glyph_in, number_in, offset_in, rule_in, span_in};

use box_pool::Cell;
use fixed_units::MathBox;
use font_metrics::{GlyphId, Mark};
use layout_model::Offset;
use op_dictionary::Axis;
use span_tables::CellSpan;

/// The number in the cell at a place.
pub fn number_in(cells: &[Cell], place: usize) -> i64
    requires { place < length cells.now }
    ensures { result ≡ number_in cells.now place }
{
    cells[place].0
}

/// The box whose numbers come first.
pub fn frame_in(cells: &[Cell]) -> MathBox
    requires { 7 ≤ length cells.now }
    ensures { result ≡ frame_in cells.now }
{
    MathBox {
        width: number_in(cells, 0),
        ascent: number_in(cells, 1),
        descent: number_in(cells, 2),
        ink_ascent: number_in(cells, 3),
        ink_descent: number_in(cells, 4),
        italic: number_in(cells, 5),
        accent: number_in(cells, 6),
    }
}

/// What a cell spans whose numbers come first.
pub fn span_in(cells: &[Cell]) -> CellSpan
    requires long { 4 ≤ length cells.now }
    requires columns { IsCount (2 ^ 32) (number_in cells.now 0) }
    requires rows { IsCount (2 ^ 32) (number_in cells.now 1) }
    ensures { result ≡ span_in cells.now }
{
    CellSpan {
        columns: number_in(cells, 0) as u32,
        rows: number_in(cells, 1) as u32,
        ascent: number_in(cells, 2),
        descent: number_in(cells, 3),
    }
}

/// The offset whose numbers come first.
pub fn offset_in(cells: &[Cell]) -> Offset
    requires long { 3 ≤ length cells.now }
    requires kid { IsCount (2 ^ 32) (number_in cells.now 0) }
    ensures { result ≡ offset_in cells.now }
{
    Offset {
        kid: number_in(cells, 0) as u32,
        x: number_in(cells, 1),
        y: number_in(cells, 2),
    }
}

/// The glyph whose numbers come first.
pub fn glyph_in(cells: &[Cell]) -> Mark
    requires long { 5 ≤ length cells.now }
    requires glyph { IsCount (2 ^ 16) (number_in cells.now 4) }
    ensures { result ≡ glyph_in cells.now }
{
    Mark::Glyph {
        x: number_in(cells, 1),
        y: number_in(cells, 2),
        size: number_in(cells, 3),
        glyph: GlyphId(number_in(cells, 4) as u16),
    }
}

/// The rule whose numbers come first.
pub fn rule_in(cells: &[Cell]) -> Mark
    requires { 5 ≤ length cells.now }
    ensures { result ≡ rule_in cells.now }
{
    Mark::Rule {
        x: number_in(cells, 1),
        y: number_in(cells, 2),
        width: number_in(cells, 3),
        height: number_in(cells, 4),
    }
}

/// The built glyph whose numbers come first.
pub fn built_in(cells: &[Cell]) -> Mark
    requires long { 8 ≤ length cells.now }
    requires glyph { IsCount (2 ^ 16) (number_in cells.now 5) }
    ensures { result ≡ built_in cells.now }
{
    Mark::Built {
        x: number_in(cells, 1),
        y: number_in(cells, 2),
        size: number_in(cells, 3),
        axis: axis_of(number_in(cells, 4)),
        glyph: GlyphId(number_in(cells, 5) as u16),
        count: number_in(cells, 6),
        overlap: number_in(cells, 7),
    }
}

/// The axis of a number: block for 0, else inline.
fn axis_of(number: i64) -> Axis
    ensures { result ≡ axis_of number }
{
    if number == 0 {
        Axis::Block
    } else {
        Axis::Inline
    }
}
