ghost use Rattle.std.specs.Prelude.{◌≡◌, pos, [], IfOk};
ghost use Rattle.layout_model.specs.Answers.{no_answer};

use fixed_units::{List, MathBox, Memory};
use font_metrics::Mark;
use span_tables::CellSpan;
use std::alloc::Global;

/// What the layout of an element tells its parent. Lengths are in units (1/1024 px).
#[derive(Debug, Drop)]
pub struct Answer {
    pub frame: MathBox,
    /// The space before it, where it is an embellished operator, else 0.
    pub before: i64,
    /// The space after it, where it is an embellished operator, else 0.
    pub after: i64,
    /// Of a row of a table the widths of its cells, in order.
    pub cells: List<i64>,
    /// The same of what they span, where one of them spans more than its own place; else none.
    pub spans: List<CellSpan>,
}

impl Answer {
    /// What counts as the answer of a child that wasn't asked: a box of zeros. It takes no memory.
    pub fn none(alloc: Global) -> Answer
        ensures { result ≡ no_answer }
    {
        Answer::of_box(alloc, EMPTY)
    }

    /// That of a box, with no space round it, and no cells. It takes no memory.
    pub fn of_box(alloc: Global, frame: MathBox) -> Answer
        ensures { result ≡ record {
          frame = frame;
          before = pos 0;
          after = pos 0;
          cells = [];
          spans = [];
        } }
    {
        Answer {
            frame,
            before: 0,
            after: 0,
            cells: List::make(alloc),
            spans: List::make(alloc),
        }
    }

    /// The same again. Only that of a row of a table takes memory.
    pub fn copy(&self, alloc: Global) -> Result<Answer, Memory>
        ensures { IfOk result (λ copied. copied ≡ self.now) }
    {
        Ok(Answer {
            frame: self.frame,
            before: self.before,
            after: self.after,
            cells: copied(alloc, &self.cells)?,
            spans: copied(alloc, &self.spans)?,
        })
    }
}

/// The same items again. Most elements have no cells.
fn copied<T: Copy>(alloc: Global, items: &List<T>) -> Result<List<T>, Memory>
    ensures { IfOk result (λ copied. copied ≡ items.now) }
{
    if items.is_empty() {
        Ok(List::make(alloc))
    } else {
        items.copy(alloc)
    }
}

/// A box without size.
const EMPTY: MathBox = MathBox {
    width: 0,
    ascent: 0,
    descent: 0,
    ink_ascent: 0,
    ink_descent: 0,
    italic: 0,
    accent: 0,
};

/// Where a child stands: from the start of its parent to the right, and downward from its parent's
/// baseline to its own.
#[derive(Clone, Copy, Debug, PartialEq, Eq)]
pub struct Offset {
    /// The child's place among the children in flow, counted from 0.
    pub kid: u32,
    pub x: i64,
    pub y: i64,
}

/// An element that is laid out in a context.
#[derive(Debug, Drop)]
pub struct Outcome {
    pub answer: Answer,
    /// One for each child in flow, in order.
    pub offsets: List<Offset>,
    /// What it draws itself, in order, from its own start and baseline.
    pub marks: List<Mark>,
}
