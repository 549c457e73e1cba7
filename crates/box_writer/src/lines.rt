//! The line of each kind of item. No call takes memory.
ghost use Rattle.std.specs.Prelude.{◌≡◌, ◌∷◌, ◌++◌, [], codes};
ghost use Rattle.std.specs.Fmt.{decimal};
ghost use Rattle.doc_io.specs.Lines.{spaced, spaced_numbers};
ghost use Rattle.doc_io.specs.Pieces.{Puts};
ghost use Rattle.font_metrics.specs.Texts.{axis_text};
ghost use Rattle.box_writer.specs.Items.{IsOfFont};
ghost use Rattle.box_writer.specs.Lines.{box_line, box_numbers, item_line, mark_line, rule_line};
ghost use Rattle.box_writer.specs.declared.placed.PlacedItem.TheVariants.{Drawn};

use crate::{PlacedBox, PlacedItem};
use doc_io::{Piece, ShortText, Sink, WriteFault};
use font_metrics::{Mark, Metrics, axis_text};
use math_tree::NodeId;
use op_dictionary::Axis;

/// Puts the line of an item.
pub fn put_item<O: Sink>(
    piece: &mut Piece,
    out: &mut O,
    item: &PlacedItem,
    metrics: &Metrics,
) -> Result<(), WriteFault>
    requires { IsOfFont metrics.now item.now }
    ensures { Puts (O.told out.old) (O.told out.new) piece.old piece.new
        (item_line metrics.now item.now) result }
{
    match item {
        PlacedItem::Frame(placed) => put_box(piece, out, placed),
        PlacedItem::Drawn(mark) => put_mark(piece, out, mark, metrics),
    }
}

/// Puts the line of an element's box.
fn put_box<O: Sink>(piece: &mut Piece, out: &mut O, placed: &PlacedBox) -> Result<(), WriteFault>
    ensures { Puts (O.told out.old) (O.told out.new) piece.old piece.new
        (box_line placed.now) result }
{
    let ahead = box_ahead(placed.id);
    let behind = box_behind(placed);
    put_around(
        piece,
        out,
        ahead.as_str(),
        placed.name.as_str(),
        behind.as_str(),
    )
}

/// Puts the line of a mark.
fn put_mark<O: Sink>(
    piece: &mut Piece,
    out: &mut O,
    mark: &Mark,
    metrics: &Metrics,
) -> Result<(), WriteFault>
    requires { IsOfFont metrics.now (Drawn mark.now) }
    ensures { Puts (O.told out.old) (O.told out.new) piece.old piece.new
        (mark_line metrics.now mark.now) result }
{
    match *mark {
        Mark::Glyph { x, y, size, glyph } => {
            let ahead = glyph_ahead(x, y, size);
            put_around(piece, out, ahead.as_str(), metrics.name(glyph), "\n")
        }
        Mark::Rule {
            x,
            y,
            width,
            height,
        } => piece.put(out, rule_text(x, y, width, height).as_str()),
        Mark::Built {
            x,
            y,
            size,
            axis,
            glyph,
            count,
            overlap,
        } => {
            let ahead = built_ahead(x, y, size, axis);
            let behind = built_behind(count, overlap);
            let name = metrics.name(glyph);
            put_around(piece, out, ahead.as_str(), name, behind.as_str())
        }
    }
}

/// Puts a name between two texts.
fn put_around<O: Sink>(
    piece: &mut Piece,
    out: &mut O,
    ahead: &str,
    name: &str,
    behind: &str,
) -> Result<(), WriteFault>
    ensures { Puts (O.told out.old) (O.told out.new) piece.old piece.new
        (ahead.now ++ (name.now ++ behind.now)) result }
{
    piece.put(out, ahead)?;
    piece.put(out, name)?;
    piece.put(out, behind)
}

/// What stands ahead of an element's name.
fn box_ahead(id: NodeId) -> ShortText
    ensures { result ≡ codes "box" ++ spaced (decimal id.0) ++ 32 ∷ [] }
{
    let mut text = ShortText::of("box");
    text.add_number(i64::from(id.0));
    text.add(" ");
    text
}

/// What stands behind an element's name.
fn box_behind(placed: &PlacedBox) -> ShortText
    ensures { result ≡ spaced_numbers (box_numbers placed.now) ++ 10 ∷ [] }
{
    let frame = &placed.frame;
    let mut text = ShortText::numbered(
        "",
        &[
            placed.x,
            placed.y,
            frame.width,
            frame.ascent,
            frame.descent,
            frame.ink_ascent,
            frame.ink_descent,
        ],
    );
    text.add("\n");
    text
}

/// What stands ahead of a glyph's name.
fn glyph_ahead(x: i64, y: i64, size: i64) -> ShortText
    ensures { result ≡ codes "glyph" ++ spaced_numbers (x ∷ y ∷ size ∷ []) ++ 32 ∷ [] }
{
    let mut text = ShortText::numbered("glyph", &[x, y, size]);
    text.add(" ");
    text
}

/// The line of a rule.
#[tactic(auto, unfolding(crate::specs::Lines::rule_line))]
fn rule_text(x: i64, y: i64, width: i64, height: i64) -> ShortText
    ensures { result ≡ rule_line x y width height }
{
    let mut text = ShortText::numbered("rule", &[x, y, width, height]);
    text.add("\n");
    text
}

/// What stands ahead of the name of an assembly's base glyph.
fn built_ahead(x: i64, y: i64, size: i64, axis: Axis) -> ShortText
    ensures { result ≡ codes "built" ++ spaced_numbers (x ∷ y ∷ size ∷ [])
        ++ spaced (axis_text axis) ++ 32 ∷ [] }
{
    let mut text = ShortText::numbered("built", &[x, y, size]);
    text.add_word(axis_text(axis));
    text.add(" ");
    text
}

/// What stands behind the name of an assembly's base glyph.
fn built_behind(count: i64, overlap: i64) -> ShortText
    ensures { result ≡ spaced_numbers (count ∷ overlap ∷ []) ++ 10 ∷ [] }
{
    let mut text = ShortText::numbered("", &[count, overlap]);
    text.add("\n");
    text
}
