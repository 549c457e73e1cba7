ghost use Rattle.std.specs.Prelude.{◌≡◌, ◌≤◌, length};
ghost use Rattle.font_metrics.specs.Faults.{step_map};
ghost use Rattle.metrics_file.specs.Lines.{lent, named_in, character_in, variant_with, variant_in, part_with, part_in, SaysCharacter};
ghost use Rattle.metrics_file.specs.Said.{item_of};

use crate::choices::extender;
use crate::lines::length;
use crate::named_glyphs::NamedGlyphs;
use crate::said::Said;
use crate::steps::both;
use crate::words::{glyph_name, letter};
use font_metrics::{GlyphId, LineFault, Part, Variant};

/// `char CODE NAME`: a character, and the place of the glyph of that name.
pub fn character_line<'a>(glyphs: &NamedGlyphs, fields: &[&'a [u8]]) -> Result<Said<'a>, LineFault>
    requires { length glyphs.now ≤ 65535 }
    ensures { step_map item_of result
        ≡ step_map SaysCharacter (character_in glyphs.now (lent fields.now)) }
{
    match fields {
        &[code, name] => Ok(Said::Character(both(letter(code), named(glyphs, name))?)),
        _ => Err(LineFault::FieldCount),
    }
}

/// `BASE VARIANT MEASURE`: the base's place, and its variant.
pub fn variant_line(glyphs: &NamedGlyphs, fields: &[&[u8]]) -> Result<(u16, Variant), LineFault>
    requires { length glyphs.now ≤ 65535 }
    ensures { result ≡ variant_in glyphs.now (lent fields.now) }
{
    match fields {
        &[base, variant, measure] => variant_with(glyphs, base, variant, measure),
        _ => Err(LineFault::FieldCount),
    }
}

fn variant_with(
    glyphs: &NamedGlyphs,
    base: &[u8],
    variant: &[u8],
    measure: &[u8],
) -> Result<(u16, Variant), LineFault>
    requires { length glyphs.now ≤ 65535 }
    ensures { result ≡ variant_with glyphs.now base.now variant.now measure.now }
{
    let larger = both(named(glyphs, variant), length(measure));
    let (place, (variant, measure)) = both(named(glyphs, base), larger)?;
    let variant = Variant {
        glyph: GlyphId(variant),
        measure: i64::from(measure),
    };
    Ok((place, variant))
}

/// `BASE PART FIX|EXT START END FULL`: the base's place, and a part of its assembly.
pub fn part_line(glyphs: &NamedGlyphs, fields: &[&[u8]]) -> Result<(u16, Part), LineFault>
    requires { length glyphs.now ≤ 65535 }
    ensures { result ≡ part_in glyphs.now (lent fields.now) }
{
    match fields {
        &[base, part, role, start, end, full] => both(
            named(glyphs, base),
            part_with(glyphs, part, role, start, end, full),
        ),
        _ => Err(LineFault::FieldCount),
    }
}

fn part_with(
    glyphs: &NamedGlyphs,
    name: &[u8],
    role: &[u8],
    start: &[u8],
    end: &[u8],
    full: &[u8],
) -> Result<Part, LineFault>
    requires { length glyphs.now ≤ 65535 }
    ensures { result ≡ part_with glyphs.now name.now role.now start.now end.now full.now }
{
    let kind = both(named(glyphs, name), extender(role));
    let connectors = both(length(start), length(end));
    let ((place, extender), ((start, end), full)) = both(kind, both(connectors, length(full)))?;
    Ok(Part {
        glyph: GlyphId(place),
        extender,
        start: i64::from(start),
        end: i64::from(end),
        full: i64::from(full),
    })
}

/// The place of a glyph that a line before has named.
pub fn named(glyphs: &NamedGlyphs, word: &[u8]) -> Result<u16, LineFault>
    requires { length glyphs.now ≤ 65535 }
    ensures { result ≡ named_in glyphs.now word.now }
{
    let name = glyph_name(word)?;
    match glyphs.place(name) {
        None => Err(LineFault::NotNamed),
        Some(place) => Ok(place as u16),
    }
}
