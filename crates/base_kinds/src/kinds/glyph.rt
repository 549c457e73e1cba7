//! `glyph`: what metrics say of a character's glyph, in design units.

use crate::kinds::operators::axis_name;
use case_format::{Case, Fault, Fields, written};
use font_metrics::{Glyph, GlyphId, Metrics, Part, Variant};
use op_dictionary::Axis;
use std::alloc::AllocError;
use std::fmt::Write;

/// Adds the answer of a case of `glyph`.
pub fn answer(case: Case, words: &mut String) -> Result<(), Fault> {
    let fields = Fields::of_value(case.value, &["metrics", "letter"])?;
    let metrics = case.metrics(fields)?;
    let answered = answer_by(&metrics, fields, words);
    metrics.discard();
    answered
}

fn answer_by(metrics: &Metrics, fields: Fields, words: &mut String) -> Result<(), Fault> {
    let letter = letter_in(fields)?;
    written(add_words(metrics, metrics.glyph_of(letter), words))
}

/// The one character of the key `letter`.
fn letter_in(fields: Fields) -> Result<char, Fault> {
    let mut letters = fields.text("letter")?.chars();
    match (letters.next(), letters.next()) {
        (Some(letter), None) => Ok(letter),
        _ => Err(Fault::out_of_range("letter")),
    }
}

/// A glyph's name and numbers, then its larger glyphs and the parts of its assembly.
fn add_words(metrics: &Metrics, glyph: GlyphId, words: &mut String) -> Result<(), AllocError> {
    // Nothing is carried from call to call here, so this is asked again.
    if metrics.glyph_count() <= usize::from(glyph.0) {
        return Ok(());
    }
    words.push_str(metrics.name(glyph))?;
    add_numbers(metrics.glyph(glyph), words)?;
    for axis in [Axis::Block, Axis::Inline] {
        add_variants(metrics, metrics.variants(glyph, axis), axis, words)?;
        add_parts(metrics, metrics.assembly(glyph, axis), axis, words)?;
    }
    Ok(())
}

fn add_numbers(glyph: Glyph, words: &mut String) -> Result<(), AllocError> {
    let (advance, italic) = (glyph.advance, glyph.italic);
    let (ink_ascent, ink_descent) = (glyph.ink_ascent, glyph.ink_descent);
    write!(words, " {advance} {ink_ascent} {ink_descent} {italic}")?;
    match glyph.accent {
        Some(accent) => write!(words, " {accent}"),
        None => words.push_str(" none"),
    }
}

fn add_variants(
    metrics: &Metrics,
    variants: &[Variant],
    axis: Axis,
    words: &mut String,
) -> Result<(), AllocError> {
    for variant in variants {
        add_member(metrics, variant.glyph, axis, words)?;
        let measure = variant.measure;
        write!(words, " {measure}")?;
    }
    Ok(())
}

fn add_parts(
    metrics: &Metrics,
    parts: &[Part],
    axis: Axis,
    words: &mut String,
) -> Result<(), AllocError> {
    for part in parts {
        add_member(metrics, part.glyph, axis, words)?;
        words.push_str(if part.extender { " EXT" } else { " FIX" })?;
        let (start, end, full) = (part.start, part.end, part.full);
        write!(words, " {start} {end} {full}")?;
    }
    Ok(())
}

/// The axis and the glyph of a variant or a part.
fn add_member(
    metrics: &Metrics,
    glyph: GlyphId,
    axis: Axis,
    words: &mut String,
) -> Result<(), AllocError> {
    words.push_str("; ")?;
    words.push_str(axis_name(axis))?;
    words.push(' ')?;
    if usize::from(glyph.0) < metrics.glyph_count() {
        words.push_str(metrics.name(glyph))?;
    }
    Ok(())
}
