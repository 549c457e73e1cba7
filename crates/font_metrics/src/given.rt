ghost use Rattle.std.specs.Prelude.{◌≡◌};
ghost use Rattle.font_metrics.specs.Kept.{with_glyphs};

use crate::characters::CharacterMap;
use crate::constant_table::ConstantTable;
use crate::table::Tables;
use op_dictionary::Extra;

/// What the lines of a file have given so far, with the glyphs in a table `G`: a reader's, which
/// finds them by name, or the one that metrics keep.
#[derive(Drop)]
pub struct Given<G> {
    /// The version of the file, 1 or 2.
    pub version: u8,
    pub upem: Option<u16>,
    pub line: Option<(u16, u16)>,
    pub x_height: Option<u16>,
    pub overlap: Option<u16>,
    pub constants: ConstantTable,
    pub glyphs: G,
    pub characters: CharacterMap,
    pub tables: Tables,
    pub operators: Extra,
}

/// What a file has to give: numbers in design units, and the place of the glyph `missing`.
#[derive(Clone, Copy)]
pub struct Needed {
    pub upem: u16,
    pub line: (u16, u16),
    pub x_height: u16,
    pub missing: u16,
}

impl<G> Given<G> {
    /// The same with another table of glyphs.
    pub fn with_glyphs<H>(self, glyphs: H) -> Given<H>
    where
        G: Drop,
        ensures { result ≡ with_glyphs self glyphs }
    {
        Given {
            version: self.version,
            upem: self.upem,
            line: self.line,
            x_height: self.x_height,
            overlap: self.overlap,
            constants: self.constants,
            glyphs,
            characters: self.characters,
            tables: self.tables,
            operators: self.operators,
        }
    }
}
