ghost use Rattle.std.specs.Prelude.{◌≡◌, ◌<◌, [], ◌∷◌, ◌++◌, All, length, map, flat_map, IfOk, OnOk, Ok};
ghost use Rattle.std.specs.Fmt.{signed_decimal};
ghost use Rattle.std.specs.List.{range_with_len};
ghost use Rattle.metrics_file.specs.Print.{constant_words, glyph_words, character_words, table_lines, growth_lines, operator_words, header_lines, measures_words, overlap_lines, word_text, line_text, print_of};
ghost use Rattle.font_metrics.specs.Texts.{corner_text};
ghost use Rattle.font_metrics.specs.Tables.{step_words};
ghost use Rattle.metrics_file.specs.Reading.{metrics_of};
ghost use Rattle.font_metrics.specs.declared.table.Table.TheVariants.{Variants, Parts, Kerns};

use crate::constant_texts::text_of_place;
use crate::printed::{PrintedLines, Word};
use crate::table_words::{TABLES, table_keyword};
use crate::texts::{category_text, corner_text, extender_text, form_text};
use fixed_units::{List, Memory};
use font_metrics::{
    ConstantTable, Corner, Glyph, GlyphId, GlyphTable, Kern, Metrics, Table, axis_text,
};
use op_dictionary::{Axis, Extra};
use std::alloc::Global;

/// The canonical print: a metrics file that says the same, in one form and one order.
pub fn print_metrics(alloc: Global, metrics: &Metrics) -> Result<List<u8>, Memory>
    ensures print { IfOk result (λ text. text ≡ print_of metrics.now) }
    ensures reads_back { IfOk result (λ text. metrics_of text ≡ Ok metrics.now) }
{
    let mut lines = PrintedLines::new(alloc);
    print_lines(alloc, metrics, &mut lines)?;
    Ok(lines.into_bytes())
}

/// All lines, in order.
fn print_lines(alloc: Global, metrics: &Metrics, lines: &mut PrintedLines) -> Result<(), Memory>
    requires { lines.old ≡ [] }
    ensures print { OnOk result (lines.new ≡ print_of metrics.now) }
    ensures reads_back { OnOk result (metrics_of lines.new ≡ Ok metrics.now) }
{
    metrics.is_taken();
    print_header(metrics, lines)?;
    print_constants(metrics.constants(), lines)?;
    print_glyphs(metrics.glyphs(), lines)?;
    print_characters(metrics, lines)?;
    print_growth(alloc, metrics, lines)?;
    print_operators(metrics.extra(), lines)
}

/// The first line, and what is given once.
fn print_header(metrics: &Metrics, lines: &mut PrintedLines) -> Result<(), Memory>
    ensures { OnOk result (lines.new
        ≡ lines.old ++ flat_map line_text (header_lines metrics.now)) }
{
    let (ascent, descent) = metrics.line();
    let version = u16::from(metrics.version());
    lines.add_line("mathlay-metrics", &[Word::Natural(version)])?;
    lines.add_line("upem", &[Word::Natural(metrics.upem())])?;
    lines.add_line("line", &[Word::Natural(ascent), Word::Natural(descent)])?;
    lines.add_line("xheight", &[Word::Natural(metrics.x_height())])?;
    print_overlap(metrics.given_overlap(), lines)
}

fn print_characters(metrics: &Metrics, lines: &mut PrintedLines) -> Result<(), Memory>
    ensures { OnOk result (lines.new ≡ lines.old
        ++ flat_map line_text (map (character_words metrics.now.glyphs) metrics.now.characters)) }
{
    metrics.is_taken();
    for (letter, place) in metrics.characters().entries() {
        let name = metrics.name(GlyphId(*place));
        lines.add_line("char", &[Word::Code(*letter), Word::Text(name)])?;
    }
    Ok(())
}

/// What each glyph has in the tables by glyph.
fn print_growth(alloc: Global, metrics: &Metrics, lines: &mut PrintedLines) -> Result<(), Memory>
    ensures { OnOk result (lines.new ≡ lines.old ++ flat_map line_text
        (flat_map (growth_lines metrics.now) (range_with_len 0 (length metrics.now.glyphs)))) }
{
    for place in 0..metrics.glyph_count() as u16 {
        print_place(alloc, metrics, GlyphId(place), lines)?;
    }
    Ok(())
}

/// What a glyph has, table after table.
fn print_place(
    alloc: Global,
    metrics: &Metrics,
    base: GlyphId,
    lines: &mut PrintedLines,
) -> Result<(), Memory>
    requires { base.0 < length metrics.now.glyphs }
    ensures { OnOk result (lines.new
        ≡ lines.old ++ flat_map line_text (growth_lines metrics.now base.0)) }
{
    for table in &TABLES {
        print_table(alloc, metrics, base, *table, lines)?;
    }
    Ok(())
}

/// What a glyph has in a table.
fn print_table(
    alloc: Global,
    metrics: &Metrics,
    base: GlyphId,
    table: Table,
    lines: &mut PrintedLines,
) -> Result<(), Memory>
    requires { base.0 < length metrics.now.glyphs }
    ensures { OnOk result (lines.new
        ≡ lines.old ++ flat_map line_text (table_lines metrics.now base.0 table)) }
{
    match table {
        Table::Variants(axis) => print_variants(metrics, base, axis, lines),
        Table::Parts(axis) => print_parts(metrics, base, axis, lines),
        Table::Kerns(corner) => print_kerns(alloc, metrics, base, corner, lines),
    }
}

fn print_variants(
    metrics: &Metrics,
    base: GlyphId,
    axis: Axis,
    lines: &mut PrintedLines,
) -> Result<(), Memory>
    requires { base.0 < length metrics.now.glyphs }
    ensures { OnOk result (lines.new
        ≡ lines.old ++ flat_map line_text (table_lines metrics.now base.0 (Variants axis))) }
{
    let keyword = table_keyword(Table::Variants(axis));
    let base_name = metrics.name(base);
    for variant in metrics.variants(base, axis) {
        let words = [
            Word::Text(base_name),
            Word::Text(metrics.name(variant.glyph)),
            Word::Number(variant.measure),
        ];
        lines.add_line(keyword, &words)?;
    }
    Ok(())
}

fn print_parts(
    metrics: &Metrics,
    base: GlyphId,
    axis: Axis,
    lines: &mut PrintedLines,
) -> Result<(), Memory>
    requires { base.0 < length metrics.now.glyphs }
    ensures { OnOk result (lines.new
        ≡ lines.old ++ flat_map line_text (table_lines metrics.now base.0 (Parts axis))) }
{
    let keyword = table_keyword(Table::Parts(axis));
    let base_name = metrics.name(base);
    for part in metrics.assembly(base, axis) {
        let words = [
            Word::Text(base_name),
            Word::Text(metrics.name(part.glyph)),
            Word::Text(extender_text(part.extender)),
            Word::Number(part.start),
            Word::Number(part.end),
            Word::Number(part.full),
        ];
        lines.add_line(keyword, &words)?;
    }
    Ok(())
}

fn print_kerns(
    alloc: Global,
    metrics: &Metrics,
    base: GlyphId,
    corner: Corner,
    lines: &mut PrintedLines,
) -> Result<(), Memory>
    requires { base.0 < length metrics.now.glyphs }
    ensures { OnOk result (lines.new
        ≡ lines.old ++ flat_map line_text (table_lines metrics.now base.0 (Kerns corner))) }
{
    let base_name = metrics.name(base);
    for kern in metrics.kerns(base, corner) {
        let words = kern_words(alloc, base_name, corner, kern)?;
        lines.add_line("kern", words.as_slice())?;
    }
    Ok(())
}

/// The words of a kern behind the keyword.
fn kern_words<'a>(
    alloc: Global,
    base_name: &'a str,
    corner: Corner,
    kern: &Kern,
) -> Result<Vec<Word<'a>>, Memory>
    ensures { IfOk result (λ words. map word_text words.items
        ≡ base_name.now ∷ corner_text corner ∷ signed_decimal kern.now.lowest
        ∷ flat_map step_words kern.now.steps) }
{
    let mut words = Vec::new(alloc);
    words.push(Word::Text(base_name))?;
    words.push(Word::Text(corner_text(corner)))?;
    words.push(Word::Number(i64::from(kern.lowest)))?;
    for step in kern.steps.as_slice() {
        words.push(Word::Number(i64::from(step.height)))?;
        words.push(Word::Number(i64::from(step.value)))?;
    }
    Ok(words)
}

fn print_overlap(overlap: Option<u16>, lines: &mut PrintedLines) -> Result<(), Memory>
    ensures { OnOk result (lines.new ≡ lines.old ++ flat_map line_text (overlap_lines overlap)) }
{
    match overlap {
        None => Ok(()),
        Some(least) => lines.add_line("overlap", &[Word::Natural(least)]),
    }
}

fn print_constants(constants: &ConstantTable, lines: &mut PrintedLines) -> Result<(), Memory>
    requires { All (λ constant. constant.0 < 56) constants.now }
    ensures { OnOk result (lines.new ≡ lines.old
        ++ flat_map line_text (map constant_words constants.now)) }
{
    for (place, value) in constants.entries() {
        let words = [
            Word::Text(text_of_place(*place)),
            Word::Number(i64::from(*value)),
        ];
        lines.add_line("const", &words)?;
    }
    Ok(())
}

fn print_glyphs(glyphs: &GlyphTable, lines: &mut PrintedLines) -> Result<(), Memory>
    ensures { OnOk result (lines.new
        ≡ lines.old ++ flat_map line_text (map glyph_words glyphs.now)) }
{
    for place in 0..glyphs.len() {
        print_glyph(glyphs.name(place), glyphs.glyph(place), lines)?;
    }
    Ok(())
}

fn print_glyph(name: &str, glyph: Glyph, lines: &mut PrintedLines) -> Result<(), Memory>
    ensures { OnOk result (lines.new ≡ lines.old ++ line_text (measures_words name.now glyph)) }
{
    let name = Word::Text(name);
    let advance = Word::Number(glyph.advance);
    let ascent = Word::Number(glyph.ink_ascent);
    let descent = Word::Number(glyph.ink_descent);
    let italic = Word::Number(glyph.italic);
    match glyph.accent {
        None => lines.add_line("glyph", &[name, advance, ascent, descent, italic]),
        Some(accent) => {
            let accent = Word::Number(accent);
            lines.add_line("glyph", &[name, advance, ascent, descent, italic, accent])
        }
    }
}

fn print_operators(operators: &Extra, lines: &mut PrintedLines) -> Result<(), Memory>
    ensures { OnOk result (lines.new ≡ lines.old
        ++ flat_map line_text (map operator_words operators.now)) }
{
    for index in 0..operators.count() {
        let line = operators.line(index);
        let words = [
            Word::Codes(line.text),
            Word::Text(form_text(line.form)),
            Word::Text(category_text(line.category)),
            Word::Text(axis_text(line.axis)),
        ];
        lines.add_line("operator", &words)?;
    }
    Ok(())
}
