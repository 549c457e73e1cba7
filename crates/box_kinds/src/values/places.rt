//! How places and marks are written. Each stands behind `; `.

use font_metrics::{GlyphId, Mark, Metrics};
use op_dictionary::Axis;
use std::alloc::AllocError;
use std::fmt::Write;

/// Adds a place.
pub fn add_place(x: i64, y: i64, words: &mut String) -> Result<(), AllocError> {
    write!(words, "; {x} {y}")
}

/// Adds a mark as it stands in the output of a layout.
pub fn add_mark(metrics: &Metrics, mark: Mark, words: &mut String) -> Result<(), AllocError> {
    match mark {
        Mark::Glyph { x, y, size, glyph } => {
            write!(words, "; glyph {x} {y} {size} ")?;
            words.push_str(name_of(metrics, glyph))
        }
        Mark::Rule {
            x,
            y,
            width,
            height,
        } => write!(words, "; rule {x} {y} {width} {height}"),
        Mark::Built {
            x,
            y,
            size,
            axis,
            glyph,
            count,
            overlap,
        } => {
            let axis = axis_name(axis);
            let name = name_of(metrics, glyph);
            write!(words, "; built {x} {y} {size} {axis} {name}")?;
            write!(words, " {count} {overlap}")
        }
    }
}

/// The name of a glyph, which these metrics have.
fn name_of(metrics: &Metrics, glyph: GlyphId) -> &str {
    // Nothing is carried from call to call here, so this is asked again.
    if usize::from(glyph.0) < metrics.glyph_count() {
        metrics.name(glyph)
    } else {
        ""
    }
}

fn axis_name(axis: Axis) -> &'static str {
    match axis {
        Axis::Block => "block",
        Axis::Inline => "inline",
    }
}
