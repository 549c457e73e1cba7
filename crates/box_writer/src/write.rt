ghost use Rattle.std.specs.Prelude.{All};
ghost use Rattle.doc_io.specs.Whole.{WritesAll};
ghost use Rattle.box_writer.specs.Items.{IsOfFont};
ghost use Rattle.box_writer.specs.Lines.{text_of};

use crate::Placed;
use crate::lines::put_item;
use doc_io::{Piece, Sink, WriteFault};
use font_metrics::Metrics;

/// Writes the lines of all items, in pieces of up to 16 KiB. It takes no memory.
///
/// `WriteFault` comes only where the sink counted a fault, and a front of the lines was written
/// then.
pub fn write_placed<O: Sink>(
    out: &mut O,
    placed: &Placed,
    metrics: &Metrics,
) -> Result<(), WriteFault>
    requires { All (IsOfFont metrics.now) placed.now }
    ensures { WritesAll (O.told out.old) (O.told out.new)
        (text_of metrics.now placed.now) result }
{
    let mut piece = Piece::new();
    for item in placed.items.as_slice() {
        put_item(&mut piece, out, item, metrics)?;
    }
    piece.send(out)
}
