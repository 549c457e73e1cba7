// Metrics again, in memory of their own.
ghost use Rattle.std.specs.Prelude.{◌≡◌, IfOk, Ok};

use crate::given::Given;
use crate::glyphs::GlyphTable;
use crate::growth::{Part, Variant};
use crate::kern::Kern;
use crate::kern_tables::KernTables;
use crate::metrics::Metrics;
use crate::table::Tables;
use fixed_units::Memory;
use op_dictionary::Extra;
use std::alloc::Global;

/// What can be made again: a glyph with its name, or what a glyph has in a table.
pub trait Copied: Drop {
    /// The same again.
    fn copied(&self, alloc: Global) -> Result<Self, Memory>
        ensures { IfOk result (λ copied. copied ≡ self.now) };
}

impl Copied for Variant {
    fn copied(&self, _alloc: Global) -> Result<Variant, Memory> {
        Ok(*self)
    }
}

impl Copied for Part {
    fn copied(&self, _alloc: Global) -> Result<Part, Memory> {
        Ok(*self)
    }
}

impl Copied for Kern {
    fn copied(&self, alloc: Global) -> Result<Kern, Memory> {
        Ok(Kern {
            lowest: self.lowest,
            steps: self.steps.copy(alloc)?,
        })
    }
}

/// The same items again.
pub fn copied_items<T: Copied>(alloc: Global, items: &[T]) -> Result<Vec<T>, Memory>
    ensures { IfOk result (λ copied. copied.items ≡ items.now) }
{
    let mut copied = Vec::with_capacity(alloc, items.len())?;
    for item in items {
        copied.push(item.copied(alloc)?)?;
    }
    Ok(copied)
}

impl KernTables {
    /// The same kerns again.
    pub fn copy(&self, alloc: Global) -> Result<KernTables, Memory>
        ensures { IfOk result (λ copied. copied ≡ self.now) }
    {
        let copied = both(
            both(self.top_right.copy(alloc), self.top_left.copy(alloc)),
            both(self.bottom_right.copy(alloc), self.bottom_left.copy(alloc)),
        );
        let ((top_right, top_left), (bottom_right, bottom_left)) = copied?;
        Ok(KernTables {
            top_right,
            top_left,
            bottom_right,
            bottom_left,
        })
    }
}

impl Tables {
    /// The same tables again.
    pub fn copy(&self, alloc: Global) -> Result<Tables, Memory>
        ensures { IfOk result (λ copied. copied ≡ self.now) }
    {
        let copied = both(
            self.variants.copy(alloc),
            both(self.parts.copy(alloc), self.kerns.copy(alloc)),
        );
        let (variants, (parts, kerns)) = copied?;
        Ok(Tables {
            variants,
            parts,
            kerns,
        })
    }
}

impl Given<GlyphTable> {
    /// The same again.
    pub fn copy(&self, alloc: Global) -> Result<Given<GlyphTable>, Memory>
        ensures { IfOk result (λ copied. copied ≡ self.now) }
    {
        let copied = both(
            both(self.constants.copy(), self.glyphs.copy(alloc)),
            both(
                self.characters.copy(),
                both(self.tables.copy(alloc), copied_lines(&self.operators)),
            ),
        );
        let ((constants, glyphs), (characters, (tables, operators))) = copied?;
        Ok(Given {
            version: self.version,
            upem: self.upem,
            line: self.line,
            x_height: self.x_height,
            overlap: self.overlap,
            constants,
            glyphs,
            characters,
            tables,
            operators,
        })
    }
}

/// Both, where neither was refused memory. By it a function that copies many parts owns none of
/// them where it returns a refusal: to own some there is dear to prove. All are asked for, also
/// those behind one that was refused.
pub(crate) fn both<A: Drop, B: Drop>(
    first: Result<A, Memory>,
    second: Result<B, Memory>,
) -> Result<(A, B), Memory>
    ensures { IfOk result (λ pair. (first ≡ Ok pair.0) × (second ≡ Ok pair.1)) }
{
    match first {
        Ok(first) => match second {
            Ok(second) => Ok((first, second)),
            Err(memory) => {
                drop(first);
                Err(memory)
            }
        },
        Err(memory) => {
            drop(second);
            Err(memory)
        }
    }
}

/// The same operator lines again.
fn copied_lines(lines: &Extra) -> Result<Extra, Memory>
    ensures { IfOk result (λ copied. copied ≡ lines.now) }
{
    match lines.copy() {
        Ok(copied) => Ok(copied),
        Err(_) => Err(Memory),
    }
}

impl Metrics {
    /// The same metrics again, in memory of their own.
    pub fn copy(&self, alloc: Global) -> Result<Metrics, Memory>
        ensures { IfOk result (λ copied. copied ≡ self.now) }
    {
        Ok(Metrics {
            needs: self.needs,
            given: self.given.copy(alloc)?,
        })
    }

    /// Gives the metrics up. A crate that calls this needn't prove how.
    pub fn discard(self) {
        drop(self);
    }
}
