ghost use Rattle.std.specs.Prelude.{◌≡◌};
ghost use Rattle.font_metrics.specs.Tables.{no_tables};

use crate::by_axis::ByAxis;
use crate::corner::Corner;
use crate::growth::{Part, Variant};
use crate::kern_tables::KernTables;
use op_dictionary::Axis;
use std::alloc::Global;

/// A table by glyph, each of whose lines adds an entry to those of a glyph.
#[derive(Clone, Copy)]
pub enum Table {
    /// The larger variants along an axis.
    Variants(Axis),
    /// The parts of the assemblies along an axis.
    Parts(Axis),
    /// The kerns at a corner.
    Kerns(Corner),
}

/// What all tables by glyph have.
#[derive(Drop)]
pub struct Tables {
    pub variants: ByAxis<Variant>,
    pub parts: ByAxis<Part>,
    pub kerns: KernTables,
}

impl Tables {
    /// No entry yet. It takes no memory.
    pub fn new(alloc: Global) -> Tables
        ensures { result ≡ no_tables }
    {
        Tables {
            variants: ByAxis::new(alloc),
            parts: ByAxis::new(alloc),
            kerns: KernTables::new(alloc),
        }
    }
}
