//! What is placed straight from a tree and its kept layouts: neither is copied.
ghost use Rattle.std.specs.Prelude.{◌≡◌, ◌≤◌, ◌-◌, ◌*◌, ◌++◌, pos, true, map, IfOk, List, OnOk};
ghost use Rattle.fixed_units.specs.Boxes.{farthest};
ghost use Rattle.fixed_units.specs.Numbers.{IsWithin};
ghost use Rattle.font_metrics.specs.declared.mark.Mark.{Mark};
ghost use Rattle.math_tree.specs.Trees.{element_count};
ghost use Rattle.layout_model.specs.Laid.{all_outcomes, levels};
ghost use Rattle.layout_model.specs.Range.{mark_fits, outcome_fits};
ghost use Rattle.layout_model.specs.declared.laid.Laid.TheViews.{out-Laid};
ghost use Rattle.outcome_cells.specs.Cells.{IsMarkHeld, mark_numbers};
ghost use Rattle.outcome_cells.specs.Parts.{AreItems, item_cells};
ghost use Rattle.kept_results.specs.Backed.{IsBacked};
ghost use Rattle.kept_results.specs.Kept.{Agrees, HasEntry, IsKept};
ghost use Rattle.kept_results.specs.declared.memo.Memo.TheViews.{out-Memo};
ghost use Rattle.kept_laid.specs.Laid.{laid_kid};
ghost use Rattle.placement.specs.Placing.{kids_at, marks_at, most_levels, placed};

use crate::placing::is_silent;
use box_pool::Cell;
use box_writer::Placed;
use fixed_units::Memory;
use font_metrics::Metrics;
use kept_laid::{KeptLayout, kept_entry, kept_kids};
use kept_results::Entry;
use outcome_cells::{Store, first_mark, first_offset};
use std::alloc::Global;

/// Says where the boxes and the marks of a tree stand whose layout is kept, in document order: the
/// root's baseline begins at (0, 0). `store` has the outcomes, and `metrics` are those of the
/// layouts that are kept; none of their numbers is read.
pub fn place_kept(
    alloc: Global,
    root: &KeptLayout,
    store: &Store,
    metrics: &Metrics,
) -> Result<Placed, Memory>
    requires agrees { Agrees metrics.now root.now.node.now root.now.memo.now }
    requires backed { IsBacked metrics.now store.now.runs root.now.node.now root.now.memo.now }
    requires few { element_count root.now.node.now ≤ 65_536 }
    requires kept { IsKept (out-Memo root.now.memo.now) root.now.context.now }
    requires levels { levels (laid_kid metrics.now root.now) ≤ most_levels }
    requires stored { all_outcomes outcome_fits (laid_kid metrics.now root.now) ≡ true }
    ensures { IfOk result (λ items. items ≡ placed (laid_kid metrics.now root.now) (pos 0)
        (pos 0)) }
{
    let mut items = Placed::make(alloc);
    place_element(alloc, root, store, metrics, 0, 0, &mut items)?;
    Ok(items)
}

/// Adds what an element and all below it show, where its baseline begins at a place.
#[cycle(kept)]
fn place_element(
    alloc: Global,
    element: &KeptLayout,
    store: &Store,
    metrics: &Metrics,
    x: i64,
    y: i64,
    items: &mut Placed,
) -> Result<(), Memory>
    requires agrees { Agrees metrics.now element.now.node.now element.now.memo.now }
    requires backed { IsBacked metrics.now store.now.runs element.now.node.now
        element.now.memo.now }
    requires few { element_count element.now.node.now ≤ 65_536 }
    requires kept { IsKept (out-Memo element.now.memo.now) element.now.context.now }
    requires levels { levels (laid_kid metrics.now element.now) ≤ most_levels }
    requires right { IsWithin (farthest * (most_levels - levels (laid_kid metrics.now element.now)))
        x }
    requires down { IsWithin (farthest * (most_levels - levels (laid_kid metrics.now element.now)))
        y }
    requires stored { all_outcomes outcome_fits (laid_kid metrics.now element.now) ≡ true }
    ensures { OnOk result (items.new ≡ items.old ++ placed (laid_kid metrics.now element.now) x y) }
{
    if is_silent(element.node.head.kind) {
        return Ok(());
    }
    let entry = kept_entry(element.memo, element.context);
    let parts = store.parts(entry.run);
    items.add_box(alloc, &element.node.head, x, y, parts.frame)?;
    place_kept_marks(parts.marks, x, y, items)?;
    place_kids(alloc, element, entry, store, metrics, x, y, items)
}

/// Adds what the children in flow show, each at its offset from its parent's place.
#[cycle(kept)]
fn place_kids(
    alloc: Global,
    element: &KeptLayout,
    entry: &Entry,
    store: &Store,
    metrics: &Metrics,
    x: i64,
    y: i64,
    items: &mut Placed,
) -> Result<(), Memory>
    requires agrees { Agrees metrics.now element.now.node.now element.now.memo.now }
    requires backed { IsBacked metrics.now store.now.runs element.now.node.now
        element.now.memo.now }
    requires few { element_count element.now.node.now ≤ 65_536 }
    requires has { HasEntry (out-Memo element.now.memo.now) entry.now }
    requires in_context { entry.now.context ≡ element.now.context.now }
    requires levels { levels (laid_kid metrics.now element.now) ≤ most_levels }
    requires right { IsWithin (farthest * (most_levels - levels (laid_kid metrics.now element.now)))
        x }
    requires down { IsWithin (farthest * (most_levels - levels (laid_kid metrics.now element.now)))
        y }
    requires stored { all_outcomes outcome_fits (laid_kid metrics.now element.now) ≡ true }
    ensures { OnOk result (items.new ≡ items.old ++
        kids_at x y (out-Laid (laid_kid metrics.now element.now)).outcome.offsets
        (map placed (out-Laid (laid_kid metrics.now element.now)).kids)) }
{
    let mut rest = store.parts(entry.run).offsets;
    if rest.is_empty() {
        return Ok(());
    }
    let kids = kept_kids(alloc, element.node, element.memo, entry)?;
    for kid in kids.as_slice() {
        if rest.is_empty() {
            return Ok(());
        }
        let (offset, after) = first_offset(rest);
        place_element(
            alloc,
            kid,
            store,
            metrics,
            x + offset.x,
            y + offset.y,
            items,
        )?;
        rest = after;
    }
    Ok(())
}

/// Adds the marks, whose cells these are, of an element that stands at a place.
fn place_kept_marks(cells: &[Cell], x: i64, y: i64, items: &mut Placed) -> Result<(), Memory>
    requires right { IsWithin (farthest * most_levels) x }
    requires down { IsWithin (farthest * most_levels) y }
    requires stored { AreItems mark_numbers (λ mark. IsMarkHeld mark × (mark_fits mark ≡ true))
        cells.now }
    ensures { OnOk result ((marks : List Mark) → cells.now ≡ item_cells mark_numbers marks →
        items.new ≡ items.old ++ marks_at x y marks) }
{
    let mut rest = cells;
    while !rest.is_empty() {
        let (mark, after) = first_mark(rest);
        items.add_mark(mark, x, y)?;
        rest = after;
    }
    Ok(())
}
