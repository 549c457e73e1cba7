ghost use Rattle.std.specs.Prelude.{◌≡◌, ◌^◌, pos, ◌≤ℤ◌};
ghost use Rattle.fixed_units.specs.Boxes.{IsBoxWithin, IsStored};
ghost use Rattle.fixed_units.specs.Numbers.{IsWithin};
ghost use Rattle.radicals.specs.Equation.{IsRow, IsRootBox};
ghost use Rattle.radicals.specs.Lengths.{AreRootLengthsWithin, AreIndexLengthsWithin};
ghost use Rattle.radicals.specs.Placing.{covered_of, root_of, square_root_of, with_index_of, root_with_index_of};

use crate::equation::{index_height, kern_before, root_frame, root_start, top};
use crate::lengths::{IndexLengths, RootLengths};
use crate::parts::{Radical, Spot};
use fixed_units::{MathBox, half, join, raise};
use font_metrics::{GlyphId, Mark, Metrics};
use glyph_assembly::{Shaped, shape};
use op_dictionary::Axis;

/// A square root over what has this box, in units of 1/1024 px (MathML Core 3.3.3.2, "Square Root
/// (msqrt)"). `size` is the font size of the root, and `display` says that its style is display
/// style.
pub fn square_root(base: &MathBox, display: bool, size: i64, metrics: &Metrics) -> Radical
    requires base_in { IsRow base.now }
    requires size_low { pos 0 ≤ℤ size }
    requires size_high { size ≤ℤ pos (2 ^ 20) }
    ensures value { result ≡ square_root_of metrics.now base.now display size }
    ensures within { IsRootBox result.frame }
{
    root(base, 0, display, size, metrics)
}

/// A root with an index (MathML Core 3.3.3.3, "Root With Index (mroot)").
pub fn root_with_index(
    base: &MathBox,
    index: &MathBox,
    display: bool,
    size: i64,
    metrics: &Metrics,
) -> Radical
    requires base_fits { IsStored base.now }
    requires index_fits { IsStored index.now }
    requires size_low { pos 0 ≤ℤ size }
    requires size_high { size ≤ℤ pos (2 ^ 20) }
    ensures { result ≡ root_with_index_of metrics.now base.now index.now display size }
{
    let font = IndexLengths::at(metrics, size);
    let start = root_start(&font, index);
    let root = root(base, start, display, size, metrics);
    with_index(root, start, &font, index)
}

/// The square root sign.
const SURD: char = '\u{221A}';

/// A root whose surd begins at `start`; its box is measured from there.
fn root(base: &MathBox, start: i64, display: bool, size: i64, metrics: &Metrics) -> Radical
    requires base_in { IsRow base.now }
    requires start_in { IsWithin (2 ^ 34) start }
    requires size_low { pos 0 ≤ℤ size }
    requires size_high { size ≤ℤ pos (2 ^ 20) }
    ensures value { result ≡ root_of metrics.now base.now start display size }
    ensures within { IsRootBox result.frame }
{
    let font = RootLengths::at(metrics, size, display);
    let glyph = metrics.glyph_of(SURD);
    let span = top(&font, base) + base.ink_descent;
    let surd = shape(metrics, glyph, Axis::Block, span, size);
    covered(base, &font, &surd, glyph, start, size)
}

/// A surd with a rule over the base: the surd's ink ends at the rule's upper edge.
fn covered(
    base: &MathBox,
    font: &RootLengths,
    surd: &Shaped,
    glyph: GlyphId,
    start: i64,
    size: i64,
) -> Radical
    requires base_in { IsRow base.now }
    requires font_in { AreRootLengthsWithin (2 ^ 32) font.now }
    requires surd_in { IsBoxWithin (2 ^ 41) surd.now.frame }
    requires start_in { IsWithin (2 ^ 34) start }
    ensures value { result ≡ covered_of font.now base.now surd.now glyph start size }
    ensures within { IsRootBox result.frame }
{
    let top = top(font, base);
    let behind = start + surd.frame.width;
    Radical {
        frame: root_frame(font, base, &surd.frame),
        surd: surd.shape.mark(glyph, Axis::Block, start, surd.frame.ink_ascent - top, size),
        index: Spot { x: 0, y: 0 },
        base: Spot { x: behind, y: 0 },
        rule: Mark::Rule {
            x: behind,
            y: -top,
            width: base.width,
            height: font.thickness,
        },
    }
}

/// The root that begins at `start`, with an index ahead of it.
fn with_index(root: Radical, start: i64, font: &IndexLengths, index: &MathBox) -> Radical
    requires root_in { IsRootBox root.frame }
    requires start_in { IsWithin (2 ^ 34) start }
    requires font_in { AreIndexLengthsWithin (2 ^ 32) font.now }
    requires index_fits { IsStored index.now }
    ensures { result ≡ with_index_of root start font.now index.now }
{
    let height = index_height(font, &root.frame, index);
    let width = start + root.frame.width;
    let parts = join(&root.frame, &raise(index, height));
    Radical {
        frame: MathBox {
            width,
            italic: 0,
            accent: half(width),
            ..parts
        },
        index: Spot {
            x: kern_before(font),
            y: -height,
        },
        ..root
    }
}
