//! How much is painted. It is counted before anything is painted, and never past one more than may
//! be.
ghost use Rattle.std.specs.Prelude.{◌≡◌, ◌+◌, min, All, length};
ghost use Rattle.box_writer.specs.Items.{IsKnown};
ghost use Rattle.paint_list.specs.Paints.{IsPaintable, IsPaintableMark, most_paints, painted, paints_of, paints_of_mark};
ghost use Rattle.paint_list.specs.Pieces.{pieces_in, pieces_of};

use crate::pieces::{Assembly, times};
use box_writer::PlacedItem;
use font_metrics::{Mark, Metrics, Part};

/// The most glyphs and rules that are painted.
pub const MOST_PAINTS: u64 = 33_554_432;

/// How much is painted of items, counted to one more than may be.
pub fn paint_count(items: &[PlacedItem], metrics: &Metrics) -> u64
    requires { All (IsPaintable metrics.now) items.now }
    ensures { result ≡ min (length (painted metrics.now items.now)) (most_paints + 1) }
{
    let mut count = 0;
    for item in items {
        count = (count + paints_of_item(item, metrics)).min(MOST_PAINTS + 1);
    }
    count
}

/// How much is painted of one item, counted likewise.
fn paints_of_item(item: &PlacedItem, metrics: &Metrics) -> u64
    requires { IsPaintable metrics.now item.now }
    ensures { result ≡ min (length (paints_of metrics.now item.now)) (most_paints + 1) }
{
    match item {
        PlacedItem::Frame(_) => 0,
        PlacedItem::Drawn(mark) => paints_of_mark(*mark, metrics),
    }
}

/// How much is painted of a mark, counted likewise.
fn paints_of_mark(mark: Mark, metrics: &Metrics) -> u64
    requires { IsPaintableMark metrics.now mark }
    ensures { result ≡ min (length (paints_of_mark metrics.now mark)) (most_paints + 1) }
{
    match mark {
        Mark::Glyph { .. } => 1,
        Mark::Rule { .. } => 1,
        Mark::Built {
            x,
            y,
            size,
            axis,
            glyph,
            count,
            overlap,
        } => {
            let built = Assembly {
                x,
                y,
                size,
                axis,
                glyph,
                count,
                overlap,
            };
            pieces_of_assembly(&built, metrics)
        }
    }
}

/// How many pieces an assembly has, counted likewise.
fn pieces_of_assembly(built: &Assembly, metrics: &Metrics) -> u64
    requires { IsKnown metrics.now built.now.glyph }
    ensures { result ≡ min (length (pieces_in metrics.now built.now)) (most_paints + 1) }
{
    piece_count(metrics.assembly(built.glyph, built.axis), built.count)
}

/// How many pieces an assembly of these parts has, counted likewise.
fn piece_count(parts: &[Part], count: i64) -> u64
    ensures { result ≡ min (length (pieces_of count parts.now)) (most_paints + 1) }
{
    let mut pieces = 0;
    for part in parts {
        let more = times(part, count).min(MOST_PAINTS + 1);
        pieces = (pieces + more).min(MOST_PAINTS + 1);
    }
    pieces
}
