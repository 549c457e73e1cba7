//! The lines of an SVG. No call takes memory.
ghost use Rattle.std.specs.Prelude.{◌≡◌, ◌+◌, ◌≤◌, ◌++◌, length};
ghost use Rattle.std.specs.Fmt.{signed_decimal};
ghost use Rattle.fixed_units.specs.Boxes.{IsStored};
ghost use Rattle.doc_io.specs.Pieces.{Puts};
ghost use Rattle.paint_list.specs.Paints.{IsOfFont};
ghost use Rattle.paint_list.specs.Svg.{head_line, is_shown, window_line, paint_text, rect_if_shown, rect_line, use_end, use_line};

use crate::paints::Paint;
use doc_io::{Piece, ShortText, Sink, WriteFault};
use fixed_units::MathBox;
use font_metrics::Metrics;
use itoa::Buffer;

/// The last line.
pub const END: &str = "</svg>\n";

/// The first line: what is shown begins at the root's left edge and at its top, and is as wide and
/// as high as its box.
pub fn head_line(frame: &MathBox) -> ShortText
    requires { IsStored frame.now }
    ensures { result ≡ head_line frame.now }
{
    window_line(
        0 - frame.ascent,
        frame.width.max(0),
        (frame.ascent + frame.descent).max(0),
    )
}

/// The first line, by the upper edge of what is shown, its width and its height.
fn window_line(top: i64, width: i64, height: i64) -> ShortText
    ensures { result ≡ window_line top width height }
{
    let ahead = "<svg xmlns=\"http://www.w3.org/2000/svg\" viewBox=\"0";
    let mut text = ShortText::numbered(ahead, &[top, width, height]);
    text.add("\">\n");
    text
}

/// Puts the line of a glyph or a rule.
pub fn put_paint<O: Sink>(
    piece: &mut Piece,
    out: &mut O,
    paint: &Paint,
    metrics: &Metrics,
) -> Result<(), WriteFault>
    requires { IsOfFont metrics.now paint.now }
    ensures { Puts (O.told out.old) (O.told out.new) piece.old piece.new
        (paint_text metrics.now paint.now) result }
{
    match *paint {
        Paint::Glyph { x, y, size, glyph } => put_use(piece, out, x, y, size, metrics.name(glyph)),
        Paint::Rule {
            x,
            y,
            width,
            height,
        } => put_rect(piece, out, x, y, width, height),
    }
}

/// Puts the line of a glyph, by its name.
fn put_use<O: Sink>(
    piece: &mut Piece,
    out: &mut O,
    x: i64,
    y: i64,
    size: i64,
    name: &str,
) -> Result<(), WriteFault>
    ensures { Puts (O.told out.old) (O.told out.new) piece.old piece.new
        (use_line x y size name.now) result }
{
    let behind = use_end(x, y, size);
    put_around(piece, out, "<use href=\"#", name, behind.as_str())
}

/// Puts the line of a rule, where it has width and height.
fn put_rect<O: Sink>(
    piece: &mut Piece,
    out: &mut O,
    x: i64,
    y: i64,
    width: i64,
    height: i64,
) -> Result<(), WriteFault>
    ensures { Puts (O.told out.old) (O.told out.new) piece.old piece.new
        (rect_if_shown x y width height) result }
{
    if is_shown(width, height) {
        piece.put(out, rect_line(x, y, width, height).as_str())
    } else {
        Ok(())
    }
}

/// Whether a rule has width and height.
fn is_shown(width: i64, height: i64) -> bool
    ensures { result ≡ is_shown width height }
{
    (0 < width) & (0 < height)
}

/// Puts a name between two texts.
fn put_around<O: Sink>(
    piece: &mut Piece,
    out: &mut O,
    ahead: &str,
    name: &str,
    behind: &str,
) -> Result<(), WriteFault>
    ensures { Puts (O.told out.old) (O.told out.new) piece.old piece.new
        (ahead.now ++ (name.now ++ behind.now)) result }
{
    piece.put(out, ahead)?;
    piece.put(out, name)?;
    piece.put(out, behind)
}

/// What stands behind the name of a glyph.
fn use_end(x: i64, y: i64, size: i64) -> ShortText
    ensures { result ≡ use_end x y size }
{
    let mut text = ShortText::of("\" transform=\"translate(");
    add_decimal(&mut text, x);
    text.add_number(y);
    text.add(") scale(");
    add_decimal(&mut text, size);
    text.add(")\"/>\n");
    text
}

/// The line of a rule that has width and height.
fn rect_line(x: i64, y: i64, width: i64, height: i64) -> ShortText
    ensures { result ≡ rect_line x y width height }
{
    let mut text = ShortText::of("<rect x=\"");
    add_decimal(&mut text, x);
    text.add("\" y=\"");
    add_decimal(&mut text, y);
    text.add("\" width=\"");
    add_decimal(&mut text, width);
    text.add("\" height=\"");
    add_decimal(&mut text, height);
    text.add("\"/>\n");
    text
}

/// Adds a number, which has at most 20 bytes.
fn add_decimal(text: &mut ShortText, number: i64)
    requires { length text.old + 20 ≤ 160 }
    ensures text { text.new ≡ text.old ++ signed_decimal number }
    ensures short { length text.new ≤ length text.old + 20 }
{
    text.add(Buffer::new().format(number));
}
