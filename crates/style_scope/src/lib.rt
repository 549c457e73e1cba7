//! Styles: the size, depth, display style, shift and direction with which each element is laid out.
//!
//! `root_style` starts, `child_style` makes a child's style from its parent's, its place and its
//! own attributes, and `font_size` is the size that a style gives, in units of 1/1024 px.
//!
//! - Models: the user agent stylesheet of MathML Core and its properties `math-depth`,
//!   `math-style` and `math-shift`, and HTML's `dir`; own choices stand at their rules.
//! - Proved: each call gives its definition exactly (`specs/Styles.antt`, a rule a definition in
//!   `specs/Rules.antt`; `specs/Sizes.antt`). No call takes memory.
//! - Knows nothing of: boxes, glyphs, which children are in flow.
//! - Change a rule: its definition in `specs/Rules.antt`, then the function of its name in `src/`,
//!   then `rt check`.
#![tactic(auto)]

mod attributes; // what attributes say
mod rules; // one function a rule
mod scope; // root_style, child_style
mod size; // font_size
mod style; // Style, Place

pub use scope::{child_style, root_style};
pub use size::font_size;
pub use style::{Place, Style};
