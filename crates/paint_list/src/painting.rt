ghost use Rattle.std.specs.Prelude.{◌≡◌, ◌≤◌, ◌<◌, ◌++◌, Err, All, length, IfOk, OnOk};
ghost use Rattle.paint_list.specs.Paints.{IsOfFont, IsPaintable, IsPaintableMark, most_paints, painted, paints_of, paints_of_mark};
ghost use Rattle.paint_list.specs.declared.paints.PaintRefusal.TheVariants.{TooMany};

use crate::counts::{MOST_PAINTS, paint_count};
use crate::paints::{Paint, PaintRefusal};
use crate::pieces::{Assembly, add_pieces};
use box_writer::{Placed, PlacedItem};
use fixed_units::{List, Memory};
use font_metrics::{Mark, Metrics};
use std::alloc::Global;

/// What is painted of a page, in order. Where that is more than 33,554,432 glyphs and rules, it is
/// refused before memory is taken for it.
pub fn paint(alloc: Global, placed: &Placed, metrics: &Metrics) -> Result<List<Paint>, PaintRefusal>
    requires { All (IsPaintable metrics.now) placed.now }
    ensures exact { IfOk result (λ paints. paints ≡ painted metrics.now placed.now) }
    ensures glyphs { IfOk result (All (IsOfFont metrics.now)) }
    ensures few { OnOk result (length (painted metrics.now placed.now) ≤ most_paints) }
    ensures too_many { result ≡ Err TooMany
        → most_paints < length (painted metrics.now placed.now) }
    ensures refused { most_paints < length (painted metrics.now placed.now) → result ≡ Err TooMany }
{
    paint_items(alloc, placed.items.as_slice(), metrics)
}

/// The same of the items of a page.
fn paint_items(
    alloc: Global,
    items: &[PlacedItem],
    metrics: &Metrics,
) -> Result<List<Paint>, PaintRefusal>
    requires { All (IsPaintable metrics.now) items.now }
    ensures exact { IfOk result (λ paints. paints ≡ painted metrics.now items.now) }
    ensures glyphs { IfOk result (All (IsOfFont metrics.now)) }
    ensures few { OnOk result (length (painted metrics.now items.now) ≤ most_paints) }
    ensures too_many { result ≡ Err TooMany → most_paints < length (painted metrics.now items.now) }
    ensures refused { most_paints < length (painted metrics.now items.now) → result ≡ Err TooMany }
{
    // What is known of the glyphs of pieces: the call does nothing.
    metrics.is_taken();
    let count = paint_count(items, metrics);
    if count > MOST_PAINTS {
        return Err(PaintRefusal::TooMany);
    }
    Ok(paint_all(alloc, items, count as usize, metrics)?)
}

/// What is painted of all items, where it is known how much that is.
fn paint_all(
    alloc: Global,
    items: &[PlacedItem],
    count: usize,
    metrics: &Metrics,
) -> Result<List<Paint>, Memory>
    requires paintable { All (IsPaintable metrics.now) items.now }
    requires few { length (painted metrics.now items.now) ≤ most_paints }
    ensures { IfOk result (λ paints. paints ≡ painted metrics.now items.now) }
{
    let mut paints = List::with_room(alloc, count)?;
    for item in items {
        add_item(&mut paints, item, metrics)?;
    }
    Ok(paints)
}

/// Adds what is painted of an item: nothing of a box.
fn add_item(paints: &mut List<Paint>, item: &PlacedItem, metrics: &Metrics) -> Result<(), Memory>
    requires paintable { IsPaintable metrics.now item.now }
    requires few { length (paints_of metrics.now item.now) ≤ most_paints }
    ensures { OnOk result (paints.new ≡ paints.old ++ paints_of metrics.now item.now) }
{
    match item {
        PlacedItem::Frame(_) => Ok(()),
        PlacedItem::Drawn(mark) => add_mark(paints, *mark, metrics),
    }
}

/// Adds what is painted of a mark.
fn add_mark(paints: &mut List<Paint>, mark: Mark, metrics: &Metrics) -> Result<(), Memory>
    requires paintable { IsPaintableMark metrics.now mark }
    requires few { length (paints_of_mark metrics.now mark) ≤ most_paints }
    ensures { OnOk result (paints.new ≡ paints.old ++ paints_of_mark metrics.now mark) }
{
    match mark {
        Mark::Glyph { x, y, size, glyph } => paints.push(Paint::Glyph { x, y, size, glyph }),
        Mark::Rule {
            x,
            y,
            width,
            height,
        } => paints.push(Paint::Rule {
            x,
            y,
            width,
            height,
        }),
        Mark::Built {
            x,
            y,
            size,
            axis,
            glyph,
            count,
            overlap,
        } => {
            let built = Assembly {
                x,
                y,
                size,
                axis,
                glyph,
                count,
                overlap,
            };
            add_pieces(paints, &built, metrics)
        }
    }
}
