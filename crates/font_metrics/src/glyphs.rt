ghost use Rattle.std.specs.Prelude.{◌≡◌, ◌<◌, [], ◌∷◌, ◌++◌, length, string_bytes, IfOk, OnOk, OnErr};
ghost use Rattle.font_metrics.specs.Metrics.{glyph_in_list, name_in_list};
ghost use Rattle.font_metrics.specs.Kept.{named_glyph};

use crate::copy::{Copied, copied_items};
use crate::glyph::{Glyph, Measures};
use fixed_units::Memory;
use std::alloc::Global;
use std::marker::Model;

/// A glyph under the name that a file gives it.
#[derive(Drop)]
pub struct NamedGlyph {
    name: String,
    measures: Measures,
}

impl Model for NamedGlyph {
    ghost use Rattle.std.specs.Prelude.{string_bytes};
    ghost use Rattle.font_metrics.specs.Metrics.{NamedGlyph};

    ghost Value = { NamedGlyph };

    ghost use Rattle.font_metrics.specs.Kept.{named_glyph};

    ghost view = { λ glyph. named_glyph (string_bytes glyph.name) glyph.measures };
}

impl NamedGlyph {
    /// The glyph of that name with these measures.
    fn of(name: String, measures: Measures) -> NamedGlyph
        ensures { result ≡ named_glyph (string_bytes name) measures }
    {
        NamedGlyph { name, measures }
    }

    fn glyph(&self) -> Glyph
        ensures { result ≡ self.now.glyph }
    {
        self.measures.glyph()
    }

    fn name(&self) -> &str
        ensures { result.now ≡ self.now.name }
    {
        self.name.as_str()
    }
}

impl Copied for NamedGlyph {
    fn copied(&self, _alloc: Global) -> Result<NamedGlyph, Memory> {
        Ok(NamedGlyph {
            name: self.name.clone()?,
            measures: self.measures,
        })
    }
}

/// The glyphs of a file in file order, under their names. That the names differ is asked by
/// `Metrics::of`. Contracts see their list.
#[derive(Drop)]
pub struct GlyphTable {
    glyphs: Vec<NamedGlyph>,
}

impl Model for GlyphTable {
    ghost use Rattle.std.specs.Prelude.{List};
    ghost use Rattle.font_metrics.specs.Metrics.{NamedGlyph};

    ghost Value = { List NamedGlyph };

    ghost view = { λ table. table.glyphs.items };
}

impl GlyphTable {
    /// No glyph yet. It takes no memory.
    pub fn new(alloc: Global) -> GlyphTable
        ensures { result ≡ [] }
    {
        GlyphTable {
            glyphs: Vec::new(alloc),
        }
    }

    /// The same glyphs again.
    pub fn copy(&self, alloc: Global) -> Result<GlyphTable, Memory>
        ensures { IfOk result (λ copied. copied ≡ self.now) }
    {
        Ok(GlyphTable {
            glyphs: copied_items(alloc, self.glyphs.as_slice())?,
        })
    }

    /// How many glyphs there are.
    pub fn len(&self) -> usize
        ensures { result ≡ length self.now }
    {
        self.glyphs.len()
    }

    /// Adds a glyph at the end.
    pub fn add(&mut self, name: String, measures: Measures) -> Result<(), Memory>
        ensures ok { OnOk result
            (self.new ≡ self.old ++ named_glyph (string_bytes name) measures ∷ []) }
        ensures err { OnErr result (self.new ≡ self.old) }
    {
        self.glyphs.push(NamedGlyph::of(name, measures))?;
        Ok(())
    }

    /// The glyph at a place.
    pub fn glyph(&self, place: usize) -> Glyph
        requires { place < length self.now }
        ensures { result ≡ glyph_in_list self.now place }
    {
        self.glyphs.as_slice()[place].glyph()
    }

    /// The name of the glyph at a place.
    pub fn name(&self, place: usize) -> &str
        requires { place < length self.now }
        ensures { result.now ≡ name_in_list self.now place }
    {
        self.glyphs.as_slice()[place].name()
    }
}
