//! The boxes of leaves: tokens, operators and spaces.
//!
//! `token` sets the text of an `mi`, `mn`, `mtext` or `ms`; `operator` sets an `mo`, stretched to
//! what its row asks for or large in display style, with its spaces; `space` is an `mspace`.
//! `token_glyph` gives the glyph of a token of one character, for who sets scripts by its corners.
//! Lengths are in units (1/1024 px).
//!
//! - Models: MathML Core 3.2, "Token Elements"; own choices stand at their definitions.
//! - Proved: the results are `token_of`, `operator_of` and `space_of` (`specs/Token.antt`,
//!   `specs/Operator.antt`, `specs/Space.antt`), exactly, but for a text of more than 2^60 units,
//!   whose leaf is then as far out of range (`laws`). `space` takes no memory.
//! - Knows nothing of: trees, rows, other elements.
//! - Change a rule of operators: its definition in `specs/Operator.antt`, then the function of its
//!   name in `src/`, then `rt check`. Change the italic letters: `specs/Letters.antt`.
#![tactic(auto, using(fixed_units::proofs::Signed::from_bits))]

mod attributes; // lengths that attributes give
mod italics; // the italic letters
pub mod laws; // what can be stored is exact
mod leaf; // Leaf
mod operators; // operator
mod sizes; // minsize, maxsize, the spaces of operators
mod spaces; // space
mod stretched; // an operator of one character
mod tokens; // token, token_glyph

pub use leaf::Leaf;
pub use operators::operator;
pub use spaces::space;
pub use tokens::{token, token_glyph};
