ghost use Rattle.std.specs.Prelude.{◌≡◌, [], ◌∷◌, ◌++◌, length, None, IfOk, OnOk, OnErr};
ghost use Rattle.font_metrics.specs.Kept.{named_glyph};
ghost use Rattle.font_metrics.specs.Metrics.{place_of_name};

use fixed_units::Memory;
use font_metrics::{Given, GlyphTable, Measures};
use indexmap::IndexMap;
use std::alloc::Global;
use std::marker::Model;

/// What the lines of a file have given so far, with glyphs that are found by name.
pub type NamedGiven = Given<NamedGlyphs>;

/// The glyphs of a file while it is read: by name, each at its place in file order, which is its
/// number. Contracts see their list.
#[derive(Drop)]
pub struct NamedGlyphs {
    measures: IndexMap<String, Measures>,
}

impl Model for NamedGlyphs {
    ghost use Rattle.std.specs.Prelude.{List};
    ghost use Rattle.font_metrics.specs.Metrics.{NamedGlyph};

    ghost Value = { List NamedGlyph };

    ghost use Rattle.metrics_file.specs.NamedGlyphs.{named_glyphs};

    ghost view = { λ glyphs. named_glyphs glyphs.measures.entries };
}

impl NamedGlyphs {
    /// No glyph yet. It takes no memory.
    pub fn new(alloc: Global) -> NamedGlyphs
        ensures { result ≡ [] }
    {
        NamedGlyphs {
            measures: IndexMap::new(alloc),
        }
    }

    /// How many glyphs there are.
    pub fn len(&self) -> usize
        ensures { result ≡ length self.now }
    {
        self.measures.len()
    }

    /// The place of the glyph of that name.
    pub fn place(&self, name: &str) -> Option<usize>
        ensures { result ≡ place_of_name self.now name.now }
    {
        self.measures.get_index_of(name)
    }

    /// Adds a glyph at the end, under a name that isn't there yet.
    pub fn add(&mut self, alloc: Global, name: &str, measures: Measures) -> Result<(), Memory>
        requires { place_of_name self.old name.now ≡ None }
        ensures ok { OnOk result (self.new ≡ self.old ++ named_glyph name.now measures ∷ []) }
        ensures err { OnErr result (self.new ≡ self.old) }
    {
        let name = String::from_str(alloc, name)?;
        self.measures.insert(name, measures)?;
        Ok(())
    }

    /// The same glyphs as metrics keep them, which find none by name.
    pub fn into_table(self, alloc: Global) -> Result<GlyphTable, Memory>
        ensures { IfOk result (λ table. table ≡ self) }
    {
        let mut table = GlyphTable::new(alloc);
        for (name, measures) in self.measures {
            table.add(name, measures)?;
        }
        Ok(table)
    }
}
