ghost use Rattle.std.specs.Prelude.{◌≡◌, ◌<◌, ◌≤◌, ◌^◌, Ok, true, length, pos, int_le, ◌≤ℤ◌, ◌*ℤ◌, IfSome, unwrap_or, slice_index_or};
ghost use Rattle.std.specs.List.{All};
ghost use Rattle.fixed_units.specs.Numbers.{IsWithin, rounded};
ghost use Rattle.font_metrics.specs.Metrics.{scale_of, constant_of, percent_of, or_default, IsPercent, IsScaleDown, given_constant, line_ascent_of, line_descent_of, ex_of, overlap_of, place_of_letter, glyph_at, name_at, variants_of, parts_of, kerns_of, reached_of, values_of, kern_value, kern_of};
ghost use Rattle.font_metrics.specs.Constants.{place_of_constant};
ghost use Rattle.font_metrics.specs.Taken.{IsInDesign, IsMeasured, IsConstant, IsVariant, IsPart, IsKern, IsKernStep, IsTaken};
ghost use Rattle.font_metrics.specs.Tables.{no_kerns};
ghost use Rattle.font_metrics.specs.Whole.{IsGiven, needed, metrics_with};

use crate::characters::CharacterMap;
use crate::constant_table::ConstantTable;
use crate::constants::ConstName;
use crate::corner::Corner;
use crate::given::{Given, Needed};
use crate::glyph::{Glyph, GlyphId};
use crate::glyphs::GlyphTable;
use crate::growth::{Part, Variant};
use crate::kern::{Kern, KernStep};
use fixed_units::{Ratio, round};
use op_dictionary::{Axis, Extra};
use std::marker::Model;

/// The metrics of a font, as they are read from a file (`metrics_file`). Contracts see them as the
/// record of what the file says.
#[derive(Drop)]
pub struct Metrics {
    pub(crate) needs: Needed,
    pub(crate) given: Given<GlyphTable>,
}

impl Model for Metrics {
    ghost use Rattle.font_metrics.specs.Metrics.{MetricsValue};

    ghost Value = { MetricsValue };

    ghost use Rattle.font_metrics.specs.Whole.{value_of, IsWhole};

    ghost view = { value_of };

    ghost invariant = { IsWhole };
}

impl Metrics {
    /// The metrics of what a file gave, and of what of it had to be there. It takes no memory.
    pub fn of(needs: Needed, given: Given<GlyphTable>) -> Metrics
        requires given { IsGiven given }
        requires needs { needed given ≡ Ok needs }
        ensures { result ≡ metrics_with needs given }
    {
        Metrics { needs, given }
    }

    /// What these metrics say may stand in a file: each number is in its range, each glyph is
    /// there. It does nothing; a caller gets the fact by a call.
    pub fn is_taken(&self)
        ensures { IsTaken self.now }
    {
        let _ = &self.needs;
    }

    /// The version of the file, 1 or 2.
    pub fn version(&self) -> u8
        ensures { result ≡ self.now.version }
    {
        self.given.version
    }

    /// The design units of an em.
    pub fn upem(&self) -> u16
        ensures { result ≡ self.now.upem }
    {
        self.needs.upem
    }

    /// The ascent and the descent of a line of text, in design units.
    pub fn line(&self) -> (u16, u16)
        ensures ascent { result.0 ≡ self.now.line_ascent }
        ensures descent { result.1 ≡ self.now.line_descent }
    {
        self.needs.line
    }

    /// The height of an x, in design units.
    pub fn x_height(&self) -> u16
        ensures { result ≡ self.now.x_height }
    {
        self.needs.x_height
    }

    /// The least overlap of an assembly's connectors, where the file gives it.
    pub fn given_overlap(&self) -> Option<u16>
        ensures { result ≡ self.now.overlap }
    {
        self.given.overlap
    }

    /// The constants that the file gives.
    pub fn constants(&self) -> &ConstantTable
        ensures { result.now ≡ self.now.constants }
    {
        &self.given.constants
    }

    /// The glyphs of the file, in file order.
    pub fn glyphs(&self) -> &GlyphTable
        ensures { result.now ≡ self.now.glyphs }
    {
        &self.given.glyphs
    }

    /// The characters of the file, with their glyphs.
    pub fn characters(&self) -> &CharacterMap
        ensures { result.now ≡ self.now.characters }
    {
        &self.given.characters
    }

    /// A value of at most 2^20 design units at a font size, in units (1/1024 px): the value times
    /// the size over `upem`, rounded.
    pub fn scale(&self, value: i64, size: i64) -> i64
        requires value_in { IsWithin (2 ^ 20) value }
        requires size_low { pos 0 ≤ℤ size }
        requires size_high { size ≤ℤ pos (2 ^ 20) }
        ensures value { result ≡ scale_of self.now value size }
        ensures within { IsWithin (2 ^ 36) result }
        ensures narrow { IsWithin (2 ^ 16) value → IsWithin (2 ^ 32) result }
    {
        scaled(value, size, self.needs.upem)
    }

    /// A constant at a font size, in units; an absent one is 0. The percents have a call of their
    /// own.
    pub fn constant(&self, name: ConstName, size: i64) -> i64
        requires length { ¬ (IsPercent name) }
        requires size_low { pos 0 ≤ℤ size }
        requires size_high { size ≤ℤ pos (2 ^ 20) }
        ensures value { result ≡ constant_of self.now name size }
        ensures within { IsWithin (2 ^ 32) result }
    {
        self.scale(self.design_value(name), size)
    }

    /// A percent: 70 and 50 where the first or the second scale-down is absent or 0, and 60 where
    /// `RadicalDegreeBottomRaisePercent` is absent.
    pub fn percent(&self, name: ConstName) -> i64
        requires percent { IsPercent name }
        ensures value { result ≡ percent_of self.now name }
        ensures within { IsWithin (2 ^ 16) result }
        ensures scale_down { IsScaleDown name → (pos 1 ≤ℤ result) × (result ≤ℤ pos 200) }
    {
        let given = self.given_value(name);
        match name {
            ConstName::ScriptPercentScaleDown => or_default(70, given),
            ConstName::ScriptScriptPercentScaleDown => or_default(50, given),
            _ => given.unwrap_or(60),
        }
    }

    /// The ascent of a line of text at a font size, in units.
    pub fn line_ascent(&self, size: i64) -> i64
        requires size_low { pos 0 ≤ℤ size }
        requires size_high { size ≤ℤ pos (2 ^ 20) }
        ensures value { result ≡ line_ascent_of self.now size }
        ensures within { IsWithin (2 ^ 32) result }
    {
        self.length_at(self.needs.line.0, size)
    }

    /// The descent of a line of text at a font size, in units.
    pub fn line_descent(&self, size: i64) -> i64
        requires size_low { pos 0 ≤ℤ size }
        requires size_high { size ≤ℤ pos (2 ^ 20) }
        ensures value { result ≡ line_descent_of self.now size }
        ensures within { IsWithin (2 ^ 32) result }
    {
        self.length_at(self.needs.line.1, size)
    }

    /// One ex at a font size, in units.
    pub fn ex(&self, size: i64) -> i64
        requires size_low { pos 0 ≤ℤ size }
        requires size_high { size ≤ℤ pos (2 ^ 20) }
        ensures value { result ≡ ex_of self.now size }
        ensures within { IsWithin (2 ^ 32) result }
    {
        self.length_at(self.needs.x_height, size)
    }

    /// The least overlap of an assembly's connectors, in design units; 0 where absent.
    pub fn overlap(&self) -> i64
        ensures value { result ≡ overlap_of self.now }
        ensures within { IsWithin (2 ^ 16) result }
    {
        i64::from(self.given.overlap.unwrap_or(0))
    }

    /// How many glyphs there are. A `GlyphId` below it is one of this font's.
    pub fn glyph_count(&self) -> usize
        ensures count { result ≡ length self.now.glyphs }
        ensures within { result ≤ 65535 }
    {
        self.given.glyphs.len()
    }

    /// The glyph that shows a character: the one that the file gives it, else `missing`.
    pub fn glyph_of(&self, letter: char) -> GlyphId
        ensures value { result.0 ≡ place_of_letter self.now letter }
        ensures within { result.0 < length self.now.glyphs }
    {
        GlyphId(
            self.given
                .characters
                .place(letter)
                .unwrap_or(self.needs.missing),
        )
    }

    /// What is known of a glyph, in design units.
    pub fn glyph(&self, glyph: GlyphId) -> Glyph
        requires { glyph.0 < length self.now.glyphs }
        ensures value { result ≡ glyph_at self.now glyph.0 }
        ensures within { IsInDesign result }
        ensures ranges { IsMeasured result }
    {
        self.given.glyphs.glyph(usize::from(glyph.0))
    }

    /// The name that the file gives a glyph.
    pub fn name(&self, glyph: GlyphId) -> &str
        requires { glyph.0 < length self.now.glyphs }
        ensures { result.now ≡ name_at self.now glyph.0 }
    {
        self.given.glyphs.name(usize::from(glyph.0))
    }

    /// The variants of a glyph along an axis, in file order; at most 64.
    pub fn variants(&self, glyph: GlyphId, axis: Axis) -> &[Variant]
        requires { glyph.0 < length self.now.glyphs }
        ensures value { result.now ≡ variants_of self.now glyph.0 axis }
        ensures items { All (IsVariant (length self.now.glyphs)) result.now }
        ensures few { length result.now ≤ 64 }
    {
        self.given.tables.variants.items(axis, glyph.0)
    }

    /// The parts of a glyph's assembly along an axis, in file order; at most 16.
    pub fn assembly(&self, glyph: GlyphId, axis: Axis) -> &[Part]
        requires { glyph.0 < length self.now.glyphs }
        ensures value { result.now ≡ parts_of self.now glyph.0 axis }
        ensures items { All (IsPart (length self.now.glyphs)) result.now }
        ensures few { length result.now ≤ 16 }
    {
        self.given.tables.parts.items(axis, glyph.0)
    }

    /// A constant as the file gives it.
    fn given_value(&self, name: ConstName) -> Option<i64>
        ensures value { result ≡ given_constant self.now name }
        ensures within { IfSome result (IsWithin (2 ^ 16)) }
        ensures range { IfSome result (λ value. IsConstant (place_of_constant name, value)) }
    {
        let value = self.given.constants.value(name.place())?;
        Some(i64::from(value))
    }

    /// A constant in design units; an absent one is 0.
    fn design_value(&self, name: ConstName) -> i64
        ensures value { result ≡ unwrap_or (given_constant self.now name) (pos 0) }
        ensures within { IsWithin (2 ^ 16) result }
    {
        self.given_value(name).unwrap_or(0)
    }

    /// Design units that aren't negative, at a font size, in units.
    fn length_at(&self, units: u16, size: i64) -> i64
        requires size_low { pos 0 ≤ℤ size }
        requires size_high { size ≤ℤ pos (2 ^ 20) }
        ensures value { result ≡ scale_of self.now (pos units) size }
        ensures within { IsWithin (2 ^ 32) result }
    {
        self.scale(i64::from(units), size)
    }

    /// How far a script is moved at a corner of a glyph, in units: the value of its kern there at a
    /// height and a font size, both in units, and 0 where it has none.
    pub fn kern(&self, glyph: GlyphId, corner: Corner, height: i64, size: i64) -> i64
        requires glyph { glyph.0 < length self.now.glyphs }
        requires size_low { pos 0 ≤ℤ size }
        requires size_high { size ≤ℤ pos (2 ^ 20) }
        ensures value { result ≡ kern_of self.now glyph.0 corner height size }
        ensures within { IsWithin (2 ^ 32) result }
    {
        match self.kerns(glyph, corner).first() {
            None => 0,
            Some(kern) => self.kern_value(kern, height, size),
        }
    }

    /// Whether no glyph has a kern. A caller then needs no glyph to know that its kerns are 0.
    pub fn has_no_kerns(&self) -> bool
        ensures { result ≡ true → self.now.tables.kerns ≡ no_kerns }
    {
        self.given.tables.kerns.is_empty()
    }

    /// What a glyph has at a corner: its kern, where it has one.
    pub fn kerns(&self, glyph: GlyphId, corner: Corner) -> &[Kern]
        ensures value { result.now ≡ kerns_of self.now glyph.0 corner }
        ensures items { All IsKern result.now }
    {
        self.given.tables.kerns.items(corner, glyph.0)
    }

    /// The value of a kern at a height and a size.
    fn kern_value(&self, kern: &Kern, height: i64, size: i64) -> i64
        requires ranges { IsKern kern.now }
        requires size_low { pos 0 ≤ℤ size }
        requires size_high { size ≤ℤ pos (2 ^ 20) }
        ensures value { result ≡ kern_value self.now kern.now height size }
        ensures within { IsWithin (2 ^ 32) result }
    {
        let place = self.reached(kern.steps.as_slice(), height, size);
        self.scale(i64::from(value_at(kern, place)), size)
    }

    /// How many heights are at most a height, each at a size.
    fn reached(&self, steps: &[KernStep], height: i64, size: i64) -> usize
        requires ranges { All IsKernStep steps.now }
        requires size_low { pos 0 ≤ℤ size }
        requires size_high { size ≤ℤ pos (2 ^ 20) }
        ensures value { result ≡ reached_of self.now steps.now height size }
        ensures within { result ≤ length steps.now }
    {
        let mut count = 0;
        for step in steps {
            if self.is_reached(step, height, size) {
                count += 1;
            }
        }
        count
    }

    /// Whether the height of a step is at most a height, at a size.
    fn is_reached(&self, step: &KernStep, height: i64, size: i64) -> bool
        requires range { IsKernStep step.now }
        requires size_low { pos 0 ≤ℤ size }
        requires size_high { size ≤ℤ pos (2 ^ 20) }
        ensures { result ≡ int_le (scale_of self.now step.now.height size) height }
    {
        self.scale(i64::from(step.height), size) <= height
    }

    /// The operator lines of the file, in file order.
    pub fn extra(&self) -> &Extra
        ensures { result.now ≡ self.now.operators }
    {
        &self.given.operators
    }
}

/// The value of a kern at a place.
fn value_at(kern: &Kern, place: usize) -> i32
    requires ranges { IsKern kern.now }
    requires place { place ≤ length kern.now.steps }
    ensures value { result ≡ slice_index_or (values_of kern.now) place (pos 0) }
    ensures within { IsWithin (2 ^ 16) result }
{
    if place == 0 {
        kern.lowest
    } else {
        kern.steps.as_slice()[place - 1].value
    }
}

/// A percent that counts as absent where it is 0.
fn or_default(default: i64, given: Option<i64>) -> i64
    ensures { result ≡ or_default default given }
{
    match given {
        None | Some(0) => default,
        Some(given) => given,
    }
}

/// value * size / upem, rounded: an em has at least 16 design units, so it fits.
fn scaled(value: i64, size: i64, upem: u16) -> i64
    requires value_in { IsWithin (2 ^ 20) value }
    requires size_in { IsWithin (2 ^ 20) size }
    requires upem_low { 16 ≤ upem }
    ensures value { result ≡ rounded (value *ℤ size) (pos upem) }
{
    round(Ratio {
        num: i128::from(value * size),
        den: i128::from(upem),
    })
}
