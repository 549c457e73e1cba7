ghost use Rattle.std.specs.Prelude.{◌≡◌, ◌≤◌, length};
ghost use Rattle.font_metrics.specs.Faults.{step_map};
ghost use Rattle.metrics_file.specs.Lines.{lent, item_in};
ghost use Rattle.metrics_file.specs.Said.{item_of, IsOfNoTable};

use crate::keyword::Keyword;
use crate::lines::{
    constant_line, extent_line, glyph_line, operator_line, overlap_line, upem_line, x_height_line,
};
use crate::named_glyphs::NamedGlyphs;
use crate::named_lines::character_line;
use font_metrics::{LineFault, Measures};
use op_dictionary::OperatorLine;

/// What a line of no table behind the first says. A glyph is given by its place.
#[derive(Clone, Copy)]
pub enum Said<'a> {
    /// The design units of an em.
    Upem(u16),
    /// The ascent and the descent of a line of text.
    Line((u16, u16)),
    XHeight(u16),
    Overlap(u16),
    /// A constant's place, and its value.
    Constant((u8, i32)),
    /// A glyph's name, and its measures.
    Glyph((&'a str, Measures)),
    /// A character, and its glyph.
    Character((char, u16)),
    Operator(OperatorLine),
}

/// What a line of no table says, by its first word and its fields.
pub fn line_says<'a>(
    glyphs: &NamedGlyphs,
    keyword: Keyword,
    fields: &[&'a [u8]],
) -> Result<Said<'a>, LineFault>
    requires few { length glyphs.now ≤ 65535 }
    requires word { IsOfNoTable keyword }
    ensures { step_map item_of result ≡ item_in glyphs.now keyword (lent fields.now) }
{
    match keyword {
        Keyword::Upem => upem_line(fields),
        Keyword::Line => extent_line(fields),
        Keyword::XHeight => x_height_line(fields),
        Keyword::Overlap => overlap_line(fields),
        Keyword::Constant => constant_line(fields),
        Keyword::Glyph => glyph_line(fields),
        Keyword::Char => character_line(glyphs, fields),
        Keyword::Variants(_) | Keyword::Parts(_) | Keyword::Kern => unreachable!(),
        Keyword::Operator => operator_line(fields),
        Keyword::Unknown => Err(LineFault::UnknownWord),
    }
}
