ghost use Rattle.std.specs.Prelude.{◌≡◌, ◌<◌, ◌≤◌, ◌+◌, ◌*◌, [], ◌∷◌, ◌++◌, OnOk, length, pos, vec_capacity, vec_len};
ghost use Rattle.std.specs.List.{All};
ghost use Rattle.outcome_cells.specs.Cells.{IsHeld, IsMarkHeld, IsOffsetHeld, IsSpanHeld, axis_number, frame_numbers, in_cells, list_numbers, mark_numbers, offset_numbers, outcome_cells, own_number, span_numbers};

use box_pool::Cell;
use fixed_units::{MathBox, Memory};
use font_metrics::Mark;
use layout_model::{Answer, Offset, Outcome};
use op_dictionary::Axis;
use span_tables::CellSpan;

/// Adds the cells of an outcome to some cells. Where memory is refused, some of them may have been
/// added.
pub fn put_cells(outcome: &Outcome, cells: &mut Vec<Cell>) -> Result<(), Memory>
    ensures put { OnOk result (cells.new.items ≡ cells.old.items ++ outcome_cells outcome.now) }
    ensures held { OnOk result (IsHeld outcome.now) }
{
    let answer = &outcome.answer;
    put_frame(&answer.frame, cells)?;
    put_spaces(answer, cells)?;
    put_numbers(answer.cells.as_slice(), cells)?;
    put_spans(answer.spans.as_slice(), cells)?;
    put_offsets(outcome.offsets.as_slice(), cells)?;
    put_marks(outcome.marks.as_slice(), cells)?;
    Ok(())
}

/// Adds a cell where there is room for it.
fn put(cell: Cell, cells: &mut Vec<Cell>)
    requires room { vec_len cells.old < vec_capacity cells.old }
    ensures put { cells.new.items ≡ cells.old.items ++ cell ∷ [] }
    ensures len { vec_len cells.new ≡ vec_len cells.old + 1 }
    ensures room { vec_capacity cells.new ≡ vec_capacity cells.old }
{
    cells.push_reserved(cell);
}

/// Adds several cells where there is room for them.
fn put_all(more: &[Cell], cells: &mut Vec<Cell>)
    requires room { vec_len cells.old + length more.now ≤ vec_capacity cells.old }
    ensures put { cells.new.items ≡ cells.old.items ++ more.now }
    ensures len { vec_len cells.new ≡ vec_len cells.old + length more.now }
    ensures room { vec_capacity cells.new ≡ vec_capacity cells.old }
{
    for cell in more {
        put(*cell, cells);
    }
}

/// Adds four cells where there is room for them.
fn put_four(first: Cell, second: Cell, third: Cell, fourth: Cell, cells: &mut Vec<Cell>)
    requires room { vec_len cells.old + 4 ≤ vec_capacity cells.old }
    ensures put { cells.new.items ≡ cells.old.items ++ first ∷ second ∷ third ∷ fourth ∷ [] }
    ensures len { vec_len cells.new ≡ vec_len cells.old + 4 }
    ensures room { vec_capacity cells.new ≡ vec_capacity cells.old }
{
    put(first, cells);
    put(second, cells);
    put(third, cells);
    put(fourth, cells);
}

/// Makes room for the count of a list and for so many cells of each of its items.
fn reserve(items: usize, each: usize, cells: &mut Vec<Cell>) -> Result<(), Memory>
    ensures room { OnOk result (vec_len cells.new + (1 + items * each) ≤ vec_capacity cells.new) }
    ensures same { cells.new.items ≡ cells.old.items }
{
    let Some(all) = items.checked_mul(each) else {
        return Err(Memory);
    };
    let Some(room) = all.checked_add(1) else {
        return Err(Memory);
    };
    cells.reserve(room)?;
    Ok(())
}

/// The cells of a box.
fn put_frame(frame: &MathBox, cells: &mut Vec<Cell>) -> Result<(), Memory>
    ensures { OnOk result (cells.new.items ≡ cells.old.items
        ++ in_cells (frame_numbers frame.now)) }
{
    cells.reserve(7)?;
    let own = [
        Cell(frame.width),
        Cell(frame.ascent),
        Cell(frame.descent),
        Cell(frame.ink_ascent),
        Cell(frame.ink_descent),
        Cell(frame.italic),
        Cell(frame.accent),
    ];
    put_all(&own, cells);
    Ok(())
}

/// The cells of the spaces before and after an element.
fn put_spaces(answer: &Answer, cells: &mut Vec<Cell>) -> Result<(), Memory>
    ensures { OnOk result (cells.new.items ≡ cells.old.items
        ++ in_cells (answer.now.before ∷ answer.now.after ∷ [])) }
{
    cells.reserve(2)?;
    put(Cell(answer.before), cells);
    put(Cell(answer.after), cells);
    Ok(())
}

/// The cells of a list of numbers.
fn put_numbers(numbers: &[i64], cells: &mut Vec<Cell>) -> Result<(), Memory>
    ensures { OnOk result (cells.new.items ≡ cells.old.items
        ++ in_cells (list_numbers own_number numbers.now)) }
{
    reserve(numbers.len(), 1, cells)?;
    put(Cell(numbers.len() as i64), cells);
    for number in numbers {
        put(Cell(*number), cells);
    }
    Ok(())
}

/// The cells of a list of what cells span.
fn put_spans(spans: &[CellSpan], cells: &mut Vec<Cell>) -> Result<(), Memory>
    ensures put { OnOk result (cells.new.items ≡ cells.old.items
        ++ in_cells (list_numbers span_numbers spans.now)) }
    ensures held { OnOk result (All IsSpanHeld spans.now) }
{
    reserve(spans.len(), 4, cells)?;
    put(Cell(spans.len() as i64), cells);
    for span in spans {
        put_span(*span, cells);
    }
    Ok(())
}

/// The cells of what a cell spans.
fn put_span(span: CellSpan, cells: &mut Vec<Cell>)
    requires room { vec_len cells.old + 4 ≤ vec_capacity cells.old }
    ensures put { cells.new.items ≡ cells.old.items ++ in_cells (span_numbers span) }
    ensures held { IsSpanHeld span }
    ensures len { vec_len cells.new ≡ vec_len cells.old + 4 }
    ensures room { vec_capacity cells.new ≡ vec_capacity cells.old }
{
    put_four(
        Cell(i64::from(span.columns)),
        Cell(i64::from(span.rows)),
        Cell(span.ascent),
        Cell(span.descent),
        cells,
    );
}

/// The cells of a list of offsets.
fn put_offsets(offsets: &[Offset], cells: &mut Vec<Cell>) -> Result<(), Memory>
    ensures put { OnOk result (cells.new.items ≡ cells.old.items
        ++ in_cells (list_numbers offset_numbers offsets.now)) }
    ensures held { OnOk result (All IsOffsetHeld offsets.now) }
{
    reserve(offsets.len(), 3, cells)?;
    put(Cell(offsets.len() as i64), cells);
    for offset in offsets {
        put_offset(*offset, cells);
    }
    Ok(())
}

/// The cells of an offset.
fn put_offset(offset: Offset, cells: &mut Vec<Cell>)
    requires room { vec_len cells.old + 3 ≤ vec_capacity cells.old }
    ensures put { cells.new.items ≡ cells.old.items ++ in_cells (offset_numbers offset) }
    ensures held { IsOffsetHeld offset }
    ensures len { vec_len cells.new ≡ vec_len cells.old + 3 }
    ensures room { vec_capacity cells.new ≡ vec_capacity cells.old }
{
    put(Cell(i64::from(offset.kid)), cells);
    put(Cell(offset.x), cells);
    put(Cell(offset.y), cells);
}

/// The cells of a list of marks.
fn put_marks(marks: &[Mark], cells: &mut Vec<Cell>) -> Result<(), Memory>
    ensures put { OnOk result (cells.new.items ≡ cells.old.items
        ++ in_cells (list_numbers mark_numbers marks.now)) }
    ensures held { OnOk result (All IsMarkHeld marks.now) }
{
    reserve(marks.len(), 8, cells)?;
    put(Cell(marks.len() as i64), cells);
    for mark in marks {
        put_mark(*mark, cells);
    }
    Ok(())
}

/// The cells of a mark: no more than eight.
fn put_mark(mark: Mark, cells: &mut Vec<Cell>)
    requires room { vec_len cells.old + 8 ≤ vec_capacity cells.old }
    ensures put { cells.new.items ≡ cells.old.items ++ in_cells (mark_numbers mark) }
    ensures held { IsMarkHeld mark }
    ensures len { vec_len cells.new ≤ vec_len cells.old + 8 }
    ensures room { vec_capacity cells.new ≡ vec_capacity cells.old }
{
    match mark {
        Mark::Glyph { x, y, size, glyph } => {
            let glyph = Cell(i64::from(glyph.0));
            put(Cell(0), cells);
            put_four(Cell(x), Cell(y), Cell(size), glyph, cells);
        }
        Mark::Rule {
            x,
            y,
            width,
            height,
        } => {
            put(Cell(1), cells);
            put_four(Cell(x), Cell(y), Cell(width), Cell(height), cells);
        }
        Mark::Built {
            x,
            y,
            size,
            axis,
            glyph,
            count,
            overlap,
        } => {
            let axis = Cell(axis_number(axis));
            let glyph = Cell(i64::from(glyph.0));
            let own = [
                Cell(2),
                Cell(x),
                Cell(y),
                Cell(size),
                axis,
                glyph,
                Cell(count),
                Cell(overlap),
            ];
            put_all(&own, cells);
        }
    }
}

/// 0 for block and 1 for inline.
fn axis_number(axis: Axis) -> i64
    ensures { result ≡ pos (axis_number axis) }
{
    match axis {
        Axis::Block => 0,
        Axis::Inline => 1,
    }
}
