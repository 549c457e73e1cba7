//! Font metrics: what layout knows of a font, as a metrics file says it.
//!
//! A `Metrics` gives lengths at a font size in units, a character's glyph, and of each glyph its
//! measures and what it has in each table by glyph; `extra` gives the file's lines for the operator
//! dictionary. The crate `metrics_file` above reads a file and prints it; what it needs for this
//! stands here: what lines have given (`Given`), its tables, and `Metrics::of`.
//!
//! - Models: the metrics file of docs/FORMATS.md; its words are those of OpenType MATH.
//! - Proved: each accessor is its definition in `specs/Metrics.antt`, exactly; numbers stay within
//!   the bounds of `specs/Taken.antt`. What adds to a table and `copy` alone take memory.
//! - Knows nothing of: the bytes of a file, trees, styles, layout.
//! - Bounds for crates above: `proofs/Bounds.antt`.
//! - Add a table by glyph: a case of `Table` and a field of `Tables` (`src/table.rt`), its `Slot`
//!   in `specs/Tables.antt`; then in `metrics_file` how its lines are taken and printed
//!   (`take_fields`, `print_table`), and what is proved of its kind (`IsKind`,
//!   `proofs/TableKinds`).
//!   The rest is proved of all tables.
#![tactic(auto)]

mod by_axis; // ByAxis: such lists for each axis
mod by_glyph; // ByGlyph: lists by a glyph's place
mod characters; // CharacterMap
mod constant_table; // ConstantTable
mod constants; // ConstName
mod copy; // Copied, Metrics::copy, Metrics::discard
mod corner; // Corner
mod fault; // LineFault
mod given; // Given: what lines have given so far
mod glyph; // GlyphId, Glyph
mod glyphs; // GlyphTable
mod growth; // Variant, Part
mod kern; // Kern: the kern of a glyph at a corner
mod kern_tables; // KernTables: kerns by corner and glyph
mod mark; // Mark
mod metrics; // Metrics
mod table; // Table, Tables
mod texts; // the text of an axis

pub use by_axis::ByAxis;
pub use by_glyph::ByGlyph;
pub use characters::CharacterMap;
pub use constant_table::ConstantTable;
pub use constants::ConstName;
pub use corner::Corner;
pub use fault::LineFault;
pub use given::{Given, Needed};
pub use glyph::{Glyph, GlyphId, Measures};
pub use glyphs::GlyphTable;
pub use growth::{Part, Variant};
pub use kern::{Kern, KernStep};
pub use kern_tables::KernTables;
pub use mark::Mark;
pub use metrics::Metrics;
pub use table::{Table, Tables};
pub use texts::axis_text;
