ghost use Rattle.std.specs.Prelude.{◌≡◌, ⊤, ℤ, IfOk, List as Sequence};
ghost use Rattle.font_metrics.specs.declared.mark.Mark.{Mark};
ghost use Rattle.span_tables.specs.declared.cells.CellSpan.{CellSpan};
ghost use Rattle.layout_model.specs.declared.outcome.Offset.{Offset};
ghost use Rattle.layout_model.specs.declared.outcome.Outcome.{Outcome};
ghost use Rattle.outcome_cells.specs.Cells.{AreOfOutcome, IsMarkHeld, IsOffsetHeld, IsSpanHeld, mark_numbers, offset_numbers, outcome_cells, own_number, span_numbers};
ghost use Rattle.outcome_cells.specs.Parts.{AreItems, AreItemsOf};

use crate::first::{first_mark, first_number, first_offset, first_span};
use crate::parts::{Parts, parts_of};
use box_pool::Cell;
use fixed_units::{List, Memory};
use font_metrics::Mark;
use layout_model::{Answer, Offset, Outcome};
use span_tables::CellSpan;
use std::alloc::Global;

/// The outcome whose cells these are.
pub fn read_cells(alloc: Global, cells: &[Cell]) -> Result<Outcome, Memory>
    requires { AreOfOutcome cells.now }
    ensures { IfOk result (λ outcome. cells.now ≡ outcome_cells outcome) }
{
    let parts = parts_of(cells);
    Ok(Outcome {
        answer: read_answer(alloc, cells)?,
        offsets: read_offsets(alloc, parts.offsets)?,
        marks: read_marks(alloc, parts.marks)?,
    })
}

/// The answer of the outcome whose cells these are. Only that of a row of a table takes memory.
pub fn read_answer(alloc: Global, cells: &[Cell]) -> Result<Answer, Memory>
    requires { AreOfOutcome cells.now }
    ensures { IfOk result (λ answer. (o : Outcome) → cells.now ≡ outcome_cells o →
        answer ≡ o.answer) }
{
    let parts = parts_of(cells);
    Ok(Answer {
        frame: parts.frame,
        before: parts.before,
        after: parts.after,
        cells: read_numbers(alloc, parts.widths)?,
        spans: read_spans(alloc, parts.spans)?,
    })
}

/// The numbers in some cells.
fn read_numbers(alloc: Global, cells: &[Cell]) -> Result<List<i64>, Memory>
    requires { AreItems own_number (λ _. ⊤) cells.now }
    ensures { IfOk result (AreItemsOf own_number cells.now) }
{
    let mut rest = cells;
    let mut numbers = List::make(alloc);
    while !rest.is_empty() {
        let (number, after) = first_number(rest);
        numbers.push(number)?;
        rest = after;
    }
    Ok(numbers)
}

/// What cells span, where these are the cells of that.
fn read_spans(alloc: Global, cells: &[Cell]) -> Result<List<CellSpan>, Memory>
    requires { AreItems span_numbers IsSpanHeld cells.now }
    ensures { IfOk result (AreItemsOf span_numbers cells.now) }
{
    let mut rest = cells;
    let mut spans = List::make(alloc);
    while !rest.is_empty() {
        let (span, after) = first_span(rest);
        spans.push(span)?;
        rest = after;
    }
    Ok(spans)
}

/// The offsets whose cells these are.
fn read_offsets(alloc: Global, cells: &[Cell]) -> Result<List<Offset>, Memory>
    requires { AreItems offset_numbers IsOffsetHeld cells.now }
    ensures { IfOk result (AreItemsOf offset_numbers cells.now) }
{
    let mut rest = cells;
    let mut offsets = List::make(alloc);
    while !rest.is_empty() {
        let (offset, after) = first_offset(rest);
        offsets.push(offset)?;
        rest = after;
    }
    Ok(offsets)
}

/// The marks whose cells these are.
fn read_marks(alloc: Global, cells: &[Cell]) -> Result<List<Mark>, Memory>
    requires { AreItems mark_numbers IsMarkHeld cells.now }
    ensures { IfOk result (AreItemsOf mark_numbers cells.now) }
{
    let mut rest = cells;
    let mut marks = List::make(alloc);
    while !rest.is_empty() {
        let (mark, after) = first_mark(rest);
        marks.push(mark)?;
        rest = after;
    }
    Ok(marks)
}
