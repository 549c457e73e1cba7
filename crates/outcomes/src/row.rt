ghost use Rattle.std.specs.Prelude.{◌≡◌, ◌≤◌, ◌+◌, ◌^◌, pos, ◌+ℤ◌, length, slice_index_or, IfOk};
ghost use Rattle.std.specs.List.{All};
ghost use Rattle.fixed_units.specs.Boxes.{IsBoxWithin};
ghost use Rattle.fixed_units.specs.Numbers.{IsWithin};
ghost use Rattle.fixed_units.specs.Sums.{list_to};
ghost use Rattle.embellished.specs.Seen.{seen_of};
ghost use Rattle.layout_model.specs.Elements.{along, font, offset, row_frame, row_in, row_x, shows_spaces};
ghost use Rattle.layout_model.specs.Equations.{cell_outcome, error_outcome, root_sign_over, row_outcome, square_root_outcome};
ghost use Rattle.layout_model.specs.Rows.{error_of};
ghost use Rattle.radicals.specs.Equation.{IsRootBox};
ghost use Rattle.radicals.specs.Placing.{square_root_of};
ghost use Rattle.outcomes.specs.Outcomes.{IsOutcome};
ghost use Rattle.outcomes.specs.Rows.{IsRowWithin};

use crate::direction::{mirrored, turned};
use crate::element::Element;
use crate::root::root_marks;
use embellished::View;
use fixed_units::{List, MathBox, Memory, half};
use layout_model::{Offset, Outcome};
use math_tables::{cell, cell_start};
use radicals::{Radical, square_root};
use row_stretch::{Row, row_finish};
use std::alloc::Global;

/// A row (MathML Core 3.3.1.2).
pub fn row_outcome<V: View>(alloc: Global, e: &Element<V>) -> Result<Outcome, Memory>
    ensures { IfOk result (λ outcome. outcome ≡ row_outcome e.now) }
{
    let row = row_in(alloc, e)?;
    let frame = row_frame(e, &row);
    let offsets = along(alloc, e, &row, 0, 0)?;
    Ok(e.outcome(alloc, frame, offsets, List::make(alloc)))
}

/// An error: its row, with 1 px round it.
pub fn error_outcome<V: View>(alloc: Global, e: &Element<V>) -> Result<Outcome, Memory>
    ensures { IfOk result (λ outcome. outcome ≡ error_outcome e.now) }
{
    let row = row_in(alloc, e)?;
    let frame = bordered(&row.frame);
    let offsets = along(alloc, e, &row, BORDER, 0)?;
    Ok(e.outcome(alloc, frame, offsets, List::make(alloc)))
}

/// A square root over a row (MathML Core 3.3.3.2).
pub fn square_root_outcome<V: View>(alloc: Global, e: &Element<V>) -> Result<Outcome, Memory>
    ensures { IfOk result (IsOutcome (square_root_outcome e.now)) }
{
    let row = row_in(alloc, e)?;
    let root = square_root(&row.frame, e.context().style.display, e.size(), e.metrics());
    with_root_sign(alloc, e, &row, &root)
}

/// A radical over a row.
fn with_root_sign<V: View>(
    alloc: Global,
    e: &Element<V>,
    row: &Row,
    root: &Radical,
) -> Result<Outcome, Memory>
    requires row { row.now ≡ row_in e.now }
    requires within { IsRowWithin row.now }
    requires root { root.now ≡ square_root_of e.now.metrics row.now.frame
        e.now.context.style.display (font e.now) }
    requires frame { IsRootBox root.now.frame }
    ensures { IfOk result (IsOutcome (root_sign_over e.now root.now)) }
{
    let width = row.frame.width;
    let rtl = e.context().style.rtl;
    let start = turned(rtl, root.frame.width, i128::from(width), root.base.x);
    let offsets = along(alloc, e, row, start, root.base.y)?;
    let marks = root_marks(alloc, e, width, root)?;
    Ok(e.outcome(alloc, root.frame, offsets, marks))
}

/// A cell of a table: its row, with padding round it (MathML Core 3.5.3).
pub fn cell_outcome<V: View>(alloc: Global, e: &Element<V>) -> Result<Outcome, Memory>
    ensures { IfOk result (λ outcome. outcome ≡ cell_outcome e.now) }
{
    let row = row_in(alloc, e)?;
    let frame = cell(&row.frame, e.size(), e.metrics());
    let offsets = along(alloc, e, &row, cell_start(e.size()), 0)?;
    Ok(e.outcome(alloc, frame, offsets, List::make(alloc)))
}

/// What stands round an error, in place of a border: 1 px.
const BORDER: i64 = 1024;

/// The box of an error round its row.
#[tactic(auto, using(fixed_units::proofs::Signed::from_bits), unfolding(layout_model::specs::Rows::error_of))]
fn bordered(row: &MathBox) -> MathBox
    requires { IsBoxWithin (2 ^ 50) row.now }
    ensures { result ≡ error_of row.now }
{
    let width = row.width + 2 * BORDER;
    MathBox {
        width,
        ascent: row.ascent + BORDER,
        descent: row.descent + BORDER,
        ink_ascent: row.ink_ascent + BORDER,
        ink_descent: row.ink_descent + BORDER,
        italic: 0,
        accent: half(width),
    }
}

/// The children in flow in a row.
#[tactic(auto, unfolding(layout_model::specs::Elements::row_in))]
pub fn row_in<V: View>(alloc: Global, e: &Element<V>) -> Result<Row, Memory>
    ensures value { IfOk result (λ row. row ≡ row_in e.now) }
    ensures within { IfOk result IsRowWithin }
{
    e.has_row_kids();
    row_finish(alloc, e, shows_spaces(e.view()))
}

/// Whether a row shows the spaces of its operators: it isn't embellished itself, or it is the root.
fn shows_spaces<V: View>(view: &V) -> bool
    ensures { result ≡ shows_spaces (seen_of (V.element view.now)) }
{
    view.head().id.0 == 1 || view.facts().core.is_none()
}

/// The children of a row that begins at a start, with its baseline so far below that of the
/// element.
pub fn along<V: View>(
    alloc: Global,
    e: &Element<V>,
    row: &Row,
    start: i64,
    y: i64,
) -> Result<List<Offset>, Memory>
    requires width { IsWithin (2 ^ 50) row.now.frame.width }
    requires offsets { All (IsWithin (2 ^ 61)) row.now.offsets }
    requires start { IsWithin (2 ^ 62) start }
    ensures { IfOk result (λ offsets. offsets ≡ along e.now row.now start y) }
{
    if e.context().style.rtl || row.offsets.len() != e.count() {
        return along_by_places(alloc, e, row, start, y);
    }
    along_offsets(alloc, row.offsets.as_slice(), start, y)
}

/// The same, where each child is looked up.
fn along_by_places<V: View>(
    alloc: Global,
    e: &Element<V>,
    row: &Row,
    start: i64,
    y: i64,
) -> Result<List<Offset>, Memory>
    requires width { IsWithin (2 ^ 50) row.now.frame.width }
    requires offsets { All (IsWithin (2 ^ 61)) row.now.offsets }
    requires start { IsWithin (2 ^ 62) start }
    ensures { IfOk result (λ offsets. offsets ≡ along e.now row.now start y) }
{
    let mut offsets = List::with_room(alloc, e.count())?;
    for index in 0..e.count() {
        offsets.push(Offset {
            kid: index as u32,
            x: start + row_x(e, row, index),
            y,
        })?;
    }
    Ok(offsets)
}

/// Children so far behind a start, from left to right.
fn along_offsets(alloc: Global, offsets: &[i64], start: i64, y: i64) -> Result<List<Offset>, Memory>
    requires few { length offsets.now ≤ 65_535 }
    requires offsets { All (IsWithin (2 ^ 61)) offsets.now }
    requires start { IsWithin (2 ^ 62) start }
    ensures { IfOk result (λ places. places ≡ list_to (length offsets.now)
        (λ kid. offset kid (start +ℤ slice_index_or offsets.now kid (pos 0)) y)) }
{
    let count = offsets.len();
    let mut places = Vec::with_capacity(alloc, count)?;
    for index in 0..count {
        places.push_reserved(Offset {
            kid: index as u32,
            x: start + offsets[index],
            y,
        });
    }
    Ok(List::from(places))
}

/// Where a child begins in a row, in the direction of the element.
fn row_x<V: View>(e: &Element<V>, row: &Row, index: usize) -> i64
    requires width { IsWithin (2 ^ 50) row.now.frame.width }
    requires offsets { All (IsWithin (2 ^ 61)) row.now.offsets }
    ensures value { result ≡ row_x e.now row.now index }
    ensures within { IsWithin (2 ^ 61 + 2 ^ 52) result }
{
    let x = offset_at(row, index);
    if !e.context().style.rtl {
        return x;
    }
    let part = i128::from(e.frame(index).width);
    mirrored(row.frame.width, part, x) as i64
}

/// The box of a row: from right to left the accent of an only child is where that stands.
#[tactic(auto, using(fixed_units::proofs::Signed::from_bits), unfolding(layout_model::specs::Elements::row_frame))]
fn row_frame<V: View>(e: &Element<V>, row: &Row) -> MathBox
    requires { IsRowWithin row.now }
    ensures { result ≡ row_frame e.now row.now }
{
    if e.context().style.rtl && e.count() == 1 {
        MathBox {
            accent: row_x(e, row, 0) + e.frame(0).accent,
            ..row.frame
        }
    } else {
        row.frame
    }
}

/// How far from the row's start a child stands from left to right.
fn offset_at(row: &Row, index: usize) -> i64
    requires { All (IsWithin (2 ^ 61)) row.now.offsets }
    ensures value { result ≡ slice_index_or row.now.offsets index (pos 0) }
    ensures within { IsWithin (2 ^ 61) result }
{
    match row.offsets.as_slice().get(index) {
        Some(offset) => *offset,
        None => 0,
    }
}
