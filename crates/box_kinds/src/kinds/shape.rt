//! `shape`: what is made of a glyph to reach a target. `display_variant`: what a large operator is.

use crate::values::{ByMetrics, add_mark, size_in};
use case_format::{Fault, Fields, add_box, written};
use font_metrics::{GlyphId, Metrics};
use glyph_assembly::{Shaped, display_variant, shape};
use op_dictionary::Axis;
use std::alloc::{AllocError, Global};

/// How far a target may lie from 0.
const FAR: i64 = 1_099_511_627_776;

/// The kind `shape`.
pub struct OfShape;

impl ByMetrics for OfShape {
    fn keys() -> &'static [&'static str] {
        &["metrics", "letter", "axis", "target", "size"]
    }

    fn add_answer(
        _alloc: Global,
        metrics: &Metrics,
        fields: Fields,
        words: &mut String,
    ) -> Result<(), Fault> {
        let letter = letter_in(fields)?;
        let axis = axis_in(fields)?;
        let size = size_in(fields)?;
        let target = fields.within("target", -FAR, FAR)?;
        let glyph = metrics.glyph_of(letter);
        let shaped = shape(metrics, glyph, axis, target, size);
        written(add_shaped(metrics, &shaped, glyph, axis, size, words))
    }
}

/// The kind `display_variant`.
pub struct OfDisplayVariant;

impl ByMetrics for OfDisplayVariant {
    fn keys() -> &'static [&'static str] {
        &["metrics", "letter", "size"]
    }

    fn add_answer(
        _alloc: Global,
        metrics: &Metrics,
        fields: Fields,
        words: &mut String,
    ) -> Result<(), Fault> {
        let letter = letter_in(fields)?;
        let size = size_in(fields)?;
        let glyph = metrics.glyph_of(letter);
        let shaped = display_variant(metrics, glyph, size);
        let axis = Axis::Block;
        written(add_shaped(metrics, &shaped, glyph, axis, size, words))
    }
}

/// Adds the box, and what is drawn at the origin.
fn add_shaped(
    metrics: &Metrics,
    shaped: &Shaped,
    glyph: GlyphId,
    axis: Axis,
    size: i64,
    words: &mut String,
) -> Result<(), AllocError> {
    add_box(&shaped.frame, words)?;
    add_mark(metrics, shaped.shape.mark(glyph, axis, 0, 0, size), words)
}

/// The axis of the key `axis`.
fn axis_in(fields: Fields) -> Result<Axis, Fault> {
    match fields.text("axis")? {
        "block" => Ok(Axis::Block),
        "inline" => Ok(Axis::Inline),
        _ => Err(Fault::out_of_range("axis")),
    }
}

/// The one character of the key `letter`.
fn letter_in(fields: Fields) -> Result<char, Fault> {
    let mut letters = fields.text("letter")?.chars();
    match (letters.next(), letters.next()) {
        (Some(letter), None) => Ok(letter),
        _ => Err(Fault::out_of_range("letter")),
    }
}
