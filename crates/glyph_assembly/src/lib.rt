//! How a glyph is brought to a size: which larger glyph is taken, or how many pieces are joined.
//!
//! `shape` takes a glyph, an axis and the length to be reached, and gives the glyph's own form, one
//! of its variants or an assembly of parts, with its box. `display_variant` gives the form of a
//! large operator in display style. `glyph_frame` and `glyph_reach` give the box and the reach of
//! one glyph, and `target` what a stretched operator is to cover.
//!
//! - Models: MathML Core 5.3 ("Size variants for operators"); OpenType MATH, "MathVariants table".
//! - Proved: each call is its definition, exactly (`specs/Shaping.antt`). An assembly has the least
//!   count of repeats and the greatest overlap that reach the target, over all counts and overlaps
//!   (`laws`). No call takes memory, and none loops over counts.
//! - Knows nothing of: trees, styles, characters.
//! - Change the choice: `specs/Shaping.antt`, then `src/shaping.rt`. Change the equation of
//!   assemblies: `specs/Counts.antt`, then `src/counts.rt`, then `rt check`.
#![tactic(auto)]

mod assembly; // an assembly and its box
mod counts; // the least count, the greatest overlap
mod glyphs; // one glyph at a size
mod joints; // how far neighbouring pieces may overlap
pub mod laws; // the least count, the greatest overlap, the first variant
mod shapes; // Shape, Shaped
mod shaping; // shape, display_variant
mod sums; // Sums, over the parts of an assembly
mod targets; // target

pub use glyphs::{glyph_frame, glyph_reach};
pub use shapes::{Shape, Shaped};
pub use shaping::{display_variant, shape};
pub use targets::target;
