//! The pieces of an assembly.
ghost use Rattle.std.specs.Prelude.{◌≡◌, ◌≤◌, ◌<◌, ◌^◌, ◌++◌, pos, length, replicate, IfOk, OnOk};
ghost use Rattle.fixed_units.specs.Numbers.{IsWithin};
ghost use Rattle.font_metrics.specs.Taken.{IsPart};
ghost use Rattle.paint_list.specs.Paints.{most_paints};
ghost use Rattle.paint_list.specs.Pieces.{IsAssembly, built_paints, ink_below, piece_at, pieces_in, step_of, times};
ghost use Rattle.paint_list.specs.Running.{laid_from, start_after};

use crate::paints::Paint;
use fixed_units::{List, Memory};
use font_metrics::{GlyphId, Metrics, Part};
use op_dictionary::Axis;

/// An assembly that is painted: the place of its mark, its font size, its axis, how often each
/// extender stands in it, and how far each piece overlaps the one before it.
#[derive(Clone, Copy)]
pub struct Assembly {
    pub x: i64,
    pub y: i64,
    pub size: i64,
    pub axis: Axis,
    pub glyph: GlyphId,
    pub count: i64,
    pub overlap: i64,
}

/// Adds the pieces of an assembly, in order.
pub fn add_pieces(
    paints: &mut List<Paint>,
    built: &Assembly,
    metrics: &Metrics,
) -> Result<(), Memory>
    requires built { IsAssembly metrics.now built.now }
    requires few { length (pieces_in metrics.now built.now) ≤ most_paints }
    ensures { OnOk result (paints.new ≡ paints.old ++ built_paints metrics.now built.now) }
{
    // What a piece needs to know of the metrics: the call does nothing.
    metrics.is_taken();
    let parts = metrics.assembly(built.glyph, built.axis);
    let mut start = 0;
    for part in parts {
        start = add_part(paints, built, part, start, metrics)?;
    }
    Ok(())
}

/// Adds a part as often as it stands in the assembly, where the first of these pieces begins so far
/// from the mark's place, and says where the next piece begins.
fn add_part(
    paints: &mut List<Paint>,
    built: &Assembly,
    part: &Part,
    start: i64,
    metrics: &Metrics,
) -> Result<i64, Memory>
    requires built { IsAssembly metrics.now built.now }
    requires part { IsPart (length metrics.now.glyphs) part.now }
    requires few { times built.now.count part.now ≤ most_paints }
    requires start { IsWithin (2 ^ 59) start }
    ensures added { OnOk result (paints.new
        ≡ paints.old ++ laid_from metrics.now built.now start
        (replicate (times built.now.count part.now) part.now)) }
    ensures next { IfOk result (λ next. next
        ≡ start_after metrics.now built.now start
        (replicate (times built.now.count part.now) part.now)) }
{
    let step = step_of(built, part, metrics);
    let mut next = start;
    for _ in 0..times(part, built.count) {
        paints.push(piece_at(built, part, next, metrics))?;
        next += step;
    }
    Ok(next)
}

/// A piece that begins so far from the mark's place. Along the block axis it goes up from there,
/// and its ink begins there.
fn piece_at(built: &Assembly, part: &Part, start: i64, metrics: &Metrics) -> Paint
    requires built { IsAssembly metrics.now built.now }
    requires part { IsPart (length metrics.now.glyphs) part.now }
    requires start { IsWithin (2 ^ 60) start }
    ensures { result ≡ piece_at metrics.now built.now part.now start }
{
    match built.axis {
        Axis::Inline => Paint::Glyph {
            x: built.x + start,
            y: built.y,
            size: built.size,
            glyph: part.glyph,
        },
        Axis::Block => Paint::Glyph {
            x: built.x,
            y: built.y - start - ink_below(built, part, metrics),
            size: built.size,
            glyph: part.glyph,
        },
    }
}

/// How far the ink of a part reaches below its baseline.
fn ink_below(built: &Assembly, part: &Part, metrics: &Metrics) -> i64
    requires built { IsAssembly metrics.now built.now }
    requires part { IsPart (length metrics.now.glyphs) part.now }
    ensures value { result ≡ ink_below metrics.now built.now part.now }
    ensures near { IsWithin (2 ^ 36) result }
{
    metrics.scale(metrics.glyph(part.glyph).ink_descent, built.size)
}

/// How far along the axis the piece behind a part begins.
fn step_of(built: &Assembly, part: &Part, metrics: &Metrics) -> i64
    requires built { IsAssembly metrics.now built.now }
    requires part { IsPart (length metrics.now.glyphs) part.now }
    ensures value { result ≡ step_of metrics.now built.now part.now }
    ensures near { IsWithin (2 ^ 34) result }
{
    metrics.scale(part.full, built.size) - built.overlap
}

/// How often a part stands in an assembly: an extender so often, any other part once.
pub fn times(part: &Part, count: i64) -> u64
    ensures { result ≡ times count part.now }
{
    if !part.extender {
        return 1;
    }
    if count < 0 {
        return 0;
    }
    count as u64
}
