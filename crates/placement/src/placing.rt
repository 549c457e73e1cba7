ghost use Rattle.std.specs.Prelude.{◌≡◌, ◌≤◌, ◌-◌, ◌*◌, ◌++◌, pos, true, map, IfOk, OnOk};
ghost use Rattle.std.specs.List.{list_all};
ghost use Rattle.fixed_units.specs.Boxes.{farthest};
ghost use Rattle.fixed_units.specs.Numbers.{IsWithin};
ghost use Rattle.layout_model.specs.Laid.{all_outcomes, levels};
ghost use Rattle.layout_model.specs.Range.{mark_fits, outcome_fits};
ghost use Rattle.layout_model.specs.declared.laid.Laid.TheViews.{out-Laid};
ghost use Rattle.placement.specs.Placing.{is_silent, kids_at, marks_at, most_levels, placed};

use box_writer::Placed;
use fixed_units::Memory;
use font_metrics::Mark;
use layout_model::Laid;
use math_tree::Kind;
use std::alloc::Global;

/// Says where the boxes and the marks of a laid-out tree stand, in document order: the root's
/// baseline begins at (0, 0).
pub fn place(alloc: Global, laid: &Laid) -> Result<Placed, Memory>
    requires levels { levels laid.now ≤ most_levels }
    requires stored { all_outcomes outcome_fits laid.now ≡ true }
    ensures { IfOk result (λ items. items ≡ placed laid.now (pos 0) (pos 0)) }
{
    let mut items = Placed::make(alloc);
    place_element(alloc, laid, 0, 0, &mut items)?;
    Ok(items)
}

/// Adds what an element and all below it show, where its baseline begins at a place.
#[cycle(place)]
fn place_element(
    alloc: Global,
    laid: &Laid,
    x: i64,
    y: i64,
    items: &mut Placed,
) -> Result<(), Memory>
    requires levels { levels laid.now ≤ most_levels }
    requires right { IsWithin (farthest * (most_levels - levels laid.now)) x }
    requires down { IsWithin (farthest * (most_levels - levels laid.now)) y }
    requires stored { all_outcomes outcome_fits laid.now ≡ true }
    ensures { OnOk result (items.new ≡ items.old ++ placed laid.now x y) }
{
    if is_silent(laid.head.kind) {
        return Ok(());
    }
    items.add_box(alloc, &laid.head, x, y, laid.outcome.answer.frame)?;
    place_marks(laid.outcome.marks.as_slice(), x, y, items)?;
    place_kids(alloc, laid, x, y, items)
}

/// Adds what the children in flow show, each at its offset from its parent's place.
#[cycle(place)]
fn place_kids(alloc: Global, laid: &Laid, x: i64, y: i64, items: &mut Placed) -> Result<(), Memory>
    requires levels { levels laid.now ≤ most_levels }
    requires right { IsWithin (farthest * (most_levels - levels laid.now)) x }
    requires down { IsWithin (farthest * (most_levels - levels laid.now)) y }
    requires stored { all_outcomes outcome_fits laid.now ≡ true }
    ensures { OnOk result (items.new ≡ items.old
        ++ kids_at x y (out-Laid laid.now).outcome.offsets (map placed (out-Laid laid.now).kids)) }
{
    let offsets = laid.outcome.offsets.as_slice();
    let kids = laid.kids.as_slice();
    for index in 0..offsets.len().min(kids.len()) {
        let offset = offsets[index];
        place_element(alloc, &kids[index], x + offset.x, y + offset.y, items)?;
    }
    Ok(())
}

/// Adds the marks of an element that stands at a place.
fn place_marks(marks: &[Mark], x: i64, y: i64, items: &mut Placed) -> Result<(), Memory>
    requires right { IsWithin (farthest * most_levels) x }
    requires down { IsWithin (farthest * most_levels) y }
    requires stored { list_all mark_fits marks.now ≡ true }
    ensures { OnOk result (items.new ≡ items.old ++ marks_at x y marks.now) }
{
    for mark in marks {
        items.add_mark(*mark, x, y)?;
    }
    Ok(())
}

/// Whether elements of this kind show nothing, and all inside them neither (MathML Core 3.3.7).
pub(crate) fn is_silent(kind: Kind) -> bool
    ensures { result ≡ is_silent kind }
{
    matches!(kind, Kind::Mphantom)
}
