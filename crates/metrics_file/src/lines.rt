ghost use Rattle.std.specs.Prelude.{◌≡◌};
ghost use Rattle.font_metrics.specs.Faults.{step_map};
ghost use Rattle.metrics_file.specs.Lines.{lent, word_at, upem_in, line_in, one_length_in, length_in, reach_in, reach_if_given, constant_with, constant_in, glyph_with, glyph_in, operator_with, operator_in, SaysUpem, SaysLine, SaysXHeight, SaysOverlap, SaysConstant, SaysGlyph, SaysOperator};
ghost use Rattle.metrics_file.specs.Said.{item_of};
ghost use Rattle.font_metrics.specs.Constants.{lowest_of, highest_of};

use crate::choices::{axis, category, extender, form};
use crate::constant_texts::place_of_text;
use crate::said::Said;
use crate::steps::both;
use crate::words::{glyph_name, natural_in, number_in, operator_text};
use font_metrics::{LineFault, Measures};
use op_dictionary::OperatorLine;

/// `upem UNITS`: the design units of an em.
pub fn upem_line<'a>(fields: &[&'a [u8]]) -> Result<Said<'a>, LineFault>
    ensures { step_map item_of result ≡ step_map SaysUpem (upem_in (lent fields.now)) }
{
    match fields {
        &[units] => Ok(Said::Upem(natural_in(16, 16384, units)?)),
        _ => Err(LineFault::FieldCount),
    }
}

/// `line ASCENT DESCENT`
pub fn extent_line<'a>(fields: &[&'a [u8]]) -> Result<Said<'a>, LineFault>
    ensures { step_map item_of result ≡ step_map SaysLine (line_in (lent fields.now)) }
{
    match fields {
        &[ascent, descent] => Ok(Said::Line(both(length(ascent), length(descent))?)),
        _ => Err(LineFault::FieldCount),
    }
}

/// `xheight HEIGHT`
pub fn x_height_line<'a>(fields: &[&'a [u8]]) -> Result<Said<'a>, LineFault>
    ensures { step_map item_of result ≡ step_map SaysXHeight (one_length_in (lent fields.now)) }
{
    match fields {
        &[height] => Ok(Said::XHeight(length(height)?)),
        _ => Err(LineFault::FieldCount),
    }
}

/// `overlap LEAST`
pub fn overlap_line<'a>(fields: &[&'a [u8]]) -> Result<Said<'a>, LineFault>
    ensures { step_map item_of result ≡ step_map SaysOverlap (one_length_in (lent fields.now)) }
{
    match fields {
        &[least] => Ok(Said::Overlap(length(least)?)),
        _ => Err(LineFault::FieldCount),
    }
}

/// `const NAME VALUE`: the constant's place, and its value.
pub fn constant_line<'a>(fields: &[&'a [u8]]) -> Result<Said<'a>, LineFault>
    ensures { step_map item_of result ≡ step_map SaysConstant (constant_in (lent fields.now)) }
{
    match fields {
        &[name, value] => constant_with(name, value),
        _ => Err(LineFault::FieldCount),
    }
}

fn constant_with<'a>(name: &'a [u8], value: &'a [u8]) -> Result<Said<'a>, LineFault>
    ensures { step_map item_of result ≡ step_map SaysConstant (constant_with name.now value.now) }
{
    let Some(place) = place_of_text(name) else {
        return Err(LineFault::NotNamed);
    };
    let value = number_in(lowest(place), highest(place), value)?;
    Ok(Said::Constant((place, value)))
}

/// The least value of a constant; the two scale-down percents stand first.
fn lowest(place: u8) -> i32
    ensures { result ≡ lowest_of place }
{
    if place < 2 { 0 } else { -32768 }
}

fn highest(place: u8) -> i32
    ensures { result ≡ highest_of place }
{
    if place < 2 { 200 } else { 65535 }
}

/// `glyph NAME ADVANCE INKASCENT INKDESCENT [ITALIC [ACCENT]]`
pub fn glyph_line<'a>(fields: &[&'a [u8]]) -> Result<Said<'a>, LineFault>
    ensures { step_map item_of result ≡ step_map SaysGlyph (glyph_in (lent fields.now)) }
{
    match fields {
        &[name, advance, ascent, descent, ref more @ ..] if more.len() <= 2 => {
            glyph_with(name, advance, ascent, descent, more)
        }
        _ => Err(LineFault::FieldCount),
    }
}

fn glyph_with<'a>(
    name: &'a [u8],
    advance: &[u8],
    ascent: &[u8],
    descent: &[u8],
    more: &[&[u8]],
) -> Result<Said<'a>, LineFault>
    ensures { step_map item_of result ≡ step_map SaysGlyph
        (glyph_with name.now advance.now ascent.now descent.now (word_at 0 (lent more.now))
        (word_at 1 (lent more.now))) }
{
    let named = both(glyph_name(name), length(advance));
    let ink = both(reach(ascent), reach(descent));
    let attached = both(reach_at(0, more), reach_at(1, more));
    let ((name, advance), ((ink_ascent, ink_descent), (italic, accent))) = both(
        named,
        both(ink, attached),
    )?;
    let measures = Measures {
        advance,
        ink_ascent,
        ink_descent,
        italic: italic.unwrap_or(0),
        accent,
    };
    Ok(Said::Glyph((name, measures)))
}

/// `operator CODES FORM CATEGORY AXIS`
pub fn operator_line<'a>(fields: &[&'a [u8]]) -> Result<Said<'a>, LineFault>
    ensures { step_map item_of result ≡ step_map SaysOperator (operator_in (lent fields.now)) }
{
    match fields {
        &[codes, place, properties, direction] => {
            operator_with(codes, place, properties, direction)
        }
        _ => Err(LineFault::FieldCount),
    }
}

fn operator_with<'a>(
    codes: &'a [u8],
    place: &'a [u8],
    properties: &'a [u8],
    direction: &'a [u8],
) -> Result<Said<'a>, LineFault>
    ensures { step_map item_of result
        ≡ step_map SaysOperator (operator_with codes.now place.now properties.now direction.now) }
{
    let named = both(operator_text(codes), form(place));
    let ((text, form), (category, axis)) = both(
        named,
        both(category(properties), axis(direction)),
    )?;
    Ok(Said::Operator(OperatorLine {
        text,
        form,
        category,
        axis,
    }))
}

/// Design units that aren't negative.
pub fn length(word: &[u8]) -> Result<u16, LineFault>
    ensures { result ≡ length_in word.now }
{
    natural_in(0, 65535, word)
}

/// Design units to either side.
pub fn reach(word: &[u8]) -> Result<i32, LineFault>
    ensures { result ≡ reach_in word.now }
{
    number_in(-32768, 65535, word)
}

/// The same, where there is a word at the place.
fn reach_at(place: usize, words: &[&[u8]]) -> Result<Option<i32>, LineFault>
    ensures { result ≡ reach_if_given (word_at place (lent words.now)) }
{
    match words.get(place) {
        None => Ok(None),
        Some(&word) => Ok(Some(reach(word)?)),
    }
}
