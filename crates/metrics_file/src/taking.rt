ghost use Rattle.std.specs.Prelude.{◌≡◌, ◌≤◌, [], ◌∷◌, ◌++◌, length, false, Ok, OnOk};
ghost use Rattle.op_dictionary.specs.Dictionary.{is_named};
ghost use Rattle.op_dictionary.specs.Pairs.{IsLineText};
ghost use Rattle.metrics_file.specs.Lines.{lent};
ghost use Rattle.font_metrics.specs.Ranges.{most_glyphs};
ghost use Rattle.metrics_file.specs.Reading.{nothing, allowed, put, after_fields};
ghost use Rattle.metrics_file.specs.Reads.{Takes};
ghost use Rattle.metrics_file.specs.Said.{item_of, HasLineText};
ghost use Rattle.metrics_file.specs.declared.keyword.Keyword.TheVariants.{Variants as VariantsOf, Parts as PartsOf, Kern as KernOf};

use crate::kern_lines::kern_line;
use crate::named_glyphs::{NamedGiven, NamedGlyphs};
use crate::named_lines::{part_line, variant_line};
use crate::refusal::LineRefusal;
use crate::said::Said;
use crate::steps::fault_if;
use crate::table_entries::{take_along, take_at};
use fixed_units::Memory;
use font_metrics::{CharacterMap, ConstantTable, Given, LineFault, Tables};
use op_dictionary::{Axis, Extra, OperatorLine};
use std::alloc::Global;

/// The most glyphs of a file, so that a glyph's number fits a `u16` of OpenType.
const MOST_GLYPHS: usize = 65535;
/// The most variants of a glyph along an axis.
const MOST_VARIANTS: usize = 64;
/// The most parts of a glyph's assembly along an axis.
const MOST_PARTS: usize = 16;

/// Nothing yet, in a file of this version. It takes no memory.
pub fn nothing(alloc: Global, version: u8) -> NamedGiven
    ensures { result ≡ nothing version }
{
    Given {
        version,
        upem: None,
        line: None,
        x_height: None,
        overlap: None,
        constants: ConstantTable::new(alloc),
        glyphs: NamedGlyphs::new(alloc),
        characters: CharacterMap::new(alloc),
        tables: Tables::new(alloc),
        operators: Extra::make(alloc),
    }
}

/// Whether a line may say this behind the others: what is repeated, then what is too many.
pub fn allow(given: &NamedGiven, said: Said<'_>) -> Result<(), LineFault>
    ensures { result ≡ allowed given.now (item_of said.entry) }
{
    match said {
        Said::Upem(_) => fault_if(given.upem.is_some(), LineFault::Repeated),
        Said::Line(_) => fault_if(given.line.is_some(), LineFault::Repeated),
        Said::XHeight(_) => fault_if(given.x_height.is_some(), LineFault::Repeated),
        Said::Overlap(_) => fault_if(given.overlap.is_some(), LineFault::Repeated),
        Said::Constant((place, _)) => {
            fault_if(given.constants.value(place).is_some(), LineFault::Repeated)
        },
        Said::Glyph((name, _)) => {
            fault_if(given.glyphs.place(name).is_some(), LineFault::Repeated)?;
            fault_if(given.glyphs.len() >= MOST_GLYPHS, LineFault::TooMany)
        }
        Said::Character((letter, _)) => {
            fault_if(
                given.characters.place(letter).is_some(),
                LineFault::Repeated,
            )
        },
        Said::Operator(line) => {
            fault_if(
                given.operators.has(line.text, line.form),
                LineFault::Repeated,
            )
        },
    }
}

/// Keeps what a line says, where it may.
pub fn put(given: &mut NamedGiven, alloc: Global, said: Said<'_>) -> Result<(), Memory>
    requires free { allowed given.old (item_of said) ≡ Ok tt }
    requires text { HasLineText said }
    ensures { OnOk result (given.new ≡ put given.old (item_of said.entry)) }
{
    match said {
        Said::Upem(units) => {
            given.upem = Some(units);
            Ok(())
        }
        Said::Line(extent) => {
            given.line = Some(extent);
            Ok(())
        }
        Said::XHeight(height) => {
            given.x_height = Some(height);
            Ok(())
        }
        Said::Overlap(least) => {
            given.overlap = Some(least);
            Ok(())
        }
        Said::Constant((place, value)) => given.constants.add(place, value),
        Said::Glyph((name, measures)) => given.glyphs.add(alloc, name, measures),
        Said::Character((letter, place)) => given.characters.add(letter, place),
        Said::Operator(line) => add_operator(&mut given.operators, line),
    }
}

/// Takes the fields of a line of a variant.
pub fn take_variant(
    given: &mut NamedGiven,
    alloc: Global,
    axis: Axis,
    fields: &[&[u8]],
) -> Result<(), LineRefusal>
    requires { length given.old.glyphs ≤ most_glyphs }
    ensures { Takes (after_fields given.old (VariantsOf axis) (lent fields.now)) given.new
        result }
{
    let (place, variant) = variant_line(&given.glyphs, fields)?;
    let variants = &mut given.tables.variants;
    take_along(variants, alloc, axis, MOST_VARIANTS, place, variant)
}

/// Takes the fields of a line of a part.
pub fn take_part(
    given: &mut NamedGiven,
    alloc: Global,
    axis: Axis,
    fields: &[&[u8]],
) -> Result<(), LineRefusal>
    requires { length given.old.glyphs ≤ most_glyphs }
    ensures { Takes (after_fields given.old (PartsOf axis) (lent fields.now)) given.new result }
{
    let (place, part) = part_line(&given.glyphs, fields)?;
    let parts = &mut given.tables.parts;
    take_along(parts, alloc, axis, MOST_PARTS, place, part)
}

/// Takes the fields of a line of a kern.
pub fn take_kern(given: &mut NamedGiven, alloc: Global, fields: &[&[u8]]) -> Result<(), LineRefusal>
    requires { length given.old.glyphs ≤ most_glyphs }
    ensures { Takes (after_fields given.old KernOf (lent fields.now)) given.new result }
{
    let (corner, (place, kern)) = kern_line(alloc, &given.glyphs, fields)?;
    take_at(&mut given.tables.kerns, alloc, corner, place, kern)
}

fn add_operator(operators: &mut Extra, line: OperatorLine) -> Result<(), Memory>
    requires text { IsLineText line.text }
    requires new { is_named operators.old line.text line.form ≡ false }
    ensures { OnOk result (operators.new ≡ operators.old ++ line ∷ []) }
{
    match operators.add(line) {
        Ok(()) => Ok(()),
        Err(_) => Err(Memory),
    }
}
