//! What is painted of a page: single glyphs and rules, in the order in which they are drawn, and
//! the SVG that shows them.
//!
//! `paint` takes what stands on a page and gives the list of what is painted: each glyph and rule
//! as it is, and each assembly of glyphs as its pieces. `write_svg` writes that list as an SVG.
//!
//! - Models: an assembly of OpenType MATH ("GlyphAssembly"), whose pieces stand one after another;
//!   SVG 2, of which `svg`, `use` and `rect` are written.
//! - Proved: the list is `painted` (`specs/Pieces.antt`), exactly, and it is refused exactly where
//!   it would be too long, before memory is taken for it; `write_svg` appends `svg_of`
//!   (`specs/Svg.antt`), exactly, or a front of it where a write failed, and takes no memory.
//! - Knows nothing of: trees, layout, outlines of glyphs.
//! - Change where a piece stands: `specs/Pieces.antt`, then `src/pieces.rt`. Change the SVG:
//!   `specs/Svg.antt`, then `src/tags.rt`.
#![tactic(auto)]

mod counts; // how much is painted
pub mod laws; // what holds of all
mod paints; // Paint, PaintRefusal
mod painting; // paint
mod pieces; // of an assembly
mod svg; // write_svg
mod tags; // the lines of an SVG

pub use painting::paint;
pub use paints::{Paint, PaintRefusal};
pub use svg::write_svg;
