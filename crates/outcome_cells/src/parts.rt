ghost use Rattle.std.specs.Prelude.{◌≡◌};
ghost use Rattle.layout_model.specs.declared.outcome.Outcome.{Outcome};
ghost use Rattle.outcome_cells.specs.Cells.{AreOfOutcome, outcome_cells};
ghost use Rattle.outcome_cells.specs.Parts.{ArePartsOf};

use crate::first::{first_frame, first_list, first_number};
use box_pool::Cell;
use fixed_units::MathBox;

/// An outcome as it lies in cells: its box and its spaces, and of each list of it the cells of the
/// items, one item after another.
#[derive(Clone, Copy, Debug)]
pub struct Parts<'a> {
    pub frame: MathBox,
    /// The space before the element.
    pub before: i64,
    /// The space after it.
    pub after: i64,
    /// The widths of the cells of a row of a table: each is one cell here.
    pub widths: &'a [Cell],
    /// What these span. `first_span` reads one.
    pub spans: &'a [Cell],
    /// Where the children stand. `first_offset` reads one.
    pub offsets: &'a [Cell],
    /// What the element draws itself. `first_mark` reads one.
    pub marks: &'a [Cell],
}

/// The parts of the outcome whose cells these are. It takes no memory.
pub fn parts_of(cells: &[Cell]) -> Parts<'_>
    requires { AreOfOutcome cells.now }
    ensures { (o : Outcome) → cells.now ≡ outcome_cells o → ArePartsOf result o }
{
    let (frame, at_before) = first_frame(cells);
    let (before, at_after) = first_number(at_before);
    let (after, at_widths) = first_number(at_after);
    let (widths, at_spans) = first_list(at_widths, 1);
    let (spans, at_offsets) = first_list(at_spans, 4);
    let (offsets, at_marks) = first_list(at_offsets, 3);
    let (_, marks) = first_number(at_marks);
    Parts {
        frame,
        before,
        after,
        widths,
        spans,
        offsets,
        marks,
    }
}
