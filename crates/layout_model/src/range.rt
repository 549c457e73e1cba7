ghost use Rattle.std.specs.Prelude.{◌≡◌, ◌<◌, ◌^◌, true};
ghost use Rattle.std.specs.List.{list_all};
ghost use Rattle.fixed_units.specs.Boxes.{is_stored};
ghost use Rattle.layout_model.specs.Range.{answer_fits, mark_fits, offset_fits, outcome_fits, span_fits};

use crate::outcome::{Answer, Offset, Outcome};
use fixed_units::{fits as box_fits, is_stored};
use font_metrics::Mark;
use span_tables::CellSpan;

/// Whether every number of an outcome can be stored: it lies in -2^30 to 2^30 units.
#[tactic(auto, unfolding(crate::specs::Range::outcome_fits))]
pub fn outcome_fits(outcome: &Outcome) -> bool
    ensures { result ≡ outcome_fits outcome.now }
{
    answer_fits(&outcome.answer)
        & offsets_fit(outcome.offsets.as_slice())
        & marks_fit(outcome.marks.as_slice())
}

#[tactic(auto, unfolding(crate::specs::Range::answer_fits))]
fn answer_fits(answer: &Answer) -> bool
    ensures { result ≡ answer_fits answer.now }
{
    box_fits(&answer.frame)
        & is_stored(answer.before)
        & is_stored(answer.after)
        & cells_fit(answer.cells.as_slice())
        & spans_fit(answer.spans.as_slice())
}

fn cells_fit(cells: &[i64]) -> bool
    ensures { result ≡ list_all is_stored cells.now }
{
    cells.iter().all(|cell| is_stored(*cell))
}

fn spans_fit(spans: &[CellSpan]) -> bool
    ensures { result ≡ list_all span_fits spans.now }
{
    spans.iter().all(|span| span_fits(span))
}

/// Whether the heights of a cell can be stored.
fn span_fits(span: &CellSpan) -> bool
    ensures { result ≡ span_fits span.now }
{
    is_stored(span.ascent) & is_stored(span.descent)
}

fn offsets_fit(offsets: &[Offset]) -> bool
    ensures { result ≡ list_all offset_fits offsets.now }
{
    are_inside(offsets) || offsets.iter().all(|offset| offset_fits(offset))
}

/// Whether the bits of all offsets together tell that each can be stored.
fn are_inside(offsets: &[Offset]) -> bool
    ensures { result ≡ true → list_all offset_fits offsets.now ≡ true }
{
    let mut bits = 0u64;
    for offset in offsets {
        bits |= bits_of(offset);
    }
    bits < 1 << 31
}

/// The bits of both numbers of an offset together.
#[tactic(auto, unfolding(crate::specs::Range::offset_fits))]
fn bits_of(offset: &Offset) -> u64
    ensures { result < 2 ^ 31 → offset_fits offset.now ≡ true }
{
    raised(offset.x) | raised(offset.y)
}

/// A number raised by 2^30, in bits: where none above the lowest 31 is set, it can be stored.
fn raised(number: i64) -> u64
    ensures { result < 2 ^ 31 → is_stored number ≡ true }
{
    number.cast_unsigned().wrapping_add(1 << 30)
}

fn marks_fit(marks: &[Mark]) -> bool
    ensures { result ≡ list_all mark_fits marks.now }
{
    marks.iter().all(|mark| mark_fits(mark))
}

#[tactic(auto, unfolding(crate::specs::Range::offset_fits))]
fn offset_fits(offset: &Offset) -> bool
    ensures { result ≡ offset_fits offset.now }
{
    is_stored(offset.x) & is_stored(offset.y)
}

/// Whether the place of a mark and its size can be stored.
#[tactic(auto, unfolding(crate::specs::Range::mark_fits))]
fn mark_fits(mark: &Mark) -> bool
    ensures { result ≡ mark_fits mark.now }
{
    match mark {
        Mark::Rule {
            x,
            y,
            width,
            height,
        } => is_stored(*x) & is_stored(*y) & is_stored(*width) & is_stored(*height),
        Mark::Glyph { x, y, size, .. } | Mark::Built { x, y, size, .. } => {
            is_stored(*x) & is_stored(*y) & is_stored(*size)
        }
    }
}
