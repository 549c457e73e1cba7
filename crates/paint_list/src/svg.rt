ghost use Rattle.std.specs.Prelude.{[], ◌++◌, All};
ghost use Rattle.std.specs.List.{flat_map};
ghost use Rattle.fixed_units.specs.Boxes.{IsStored};
ghost use Rattle.doc_io.specs.Pieces.{Puts};
ghost use Rattle.doc_io.specs.Whole.{WritesAll};
ghost use Rattle.paint_list.specs.Paints.{IsOfFont};
ghost use Rattle.paint_list.specs.Svg.{paint_text, svg_of};

use crate::paints::Paint;
use crate::tags::{END, head_line, put_paint};
use doc_io::{Piece, Sink, WriteFault};
use fixed_units::{List, MathBox};
use font_metrics::Metrics;

/// Writes an SVG that shows what is painted in the box of the root, in pieces of up to 16 KiB. It
/// takes no memory. What each glyph looks like, with one em as one unit, is up to whoever shows it.
///
/// `WriteFault` comes only where the sink counted a fault, and a front of the SVG was written then.
pub fn write_svg<O: Sink>(
    out: &mut O,
    frame: &MathBox,
    paints: &List<Paint>,
    metrics: &Metrics,
) -> Result<(), WriteFault>
    requires frame { IsStored frame.now }
    requires glyphs { All (IsOfFont metrics.now) paints.now }
    ensures { WritesAll (O.told out.old) (O.told out.new)
        (svg_of metrics.now frame.now paints.now) result }
{
    let mut piece = Piece::new();
    put_svg(&mut piece, out, frame, paints.as_slice(), metrics)?;
    piece.send(out)
}

/// Puts all lines.
fn put_svg<O: Sink>(
    piece: &mut Piece,
    out: &mut O,
    frame: &MathBox,
    paints: &[Paint],
    metrics: &Metrics,
) -> Result<(), WriteFault>
    requires frame { IsStored frame.now }
    requires glyphs { All (IsOfFont metrics.now) paints.now }
    ensures { Puts (O.told out.old) (O.told out.new) piece.old piece.new
        (svg_of metrics.now frame.now paints.now) result }
{
    piece.put(out, head_line(frame).as_str())?;
    put_paints(piece, out, paints, metrics)?;
    piece.put(out, END)
}

/// Puts the lines of what is painted.
fn put_paints<O: Sink>(
    piece: &mut Piece,
    out: &mut O,
    paints: &[Paint],
    metrics: &Metrics,
) -> Result<(), WriteFault>
    requires { All (IsOfFont metrics.now) paints.now }
    ensures { Puts (O.told out.old) (O.told out.new) piece.old piece.new
        (flat_map (paint_text metrics.now) paints.now) result }
{
    for paint in paints {
        put_paint(piece, out, paint, metrics)?;
    }
    Ok(())
}
