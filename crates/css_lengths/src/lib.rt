//! Lengths of attributes: which texts are one, and how many units of 1/1024 px each is.
//!
//! - Models: the units of lengths are those of CSS Values and Units 4; the form of a length text is
//!   this project's own.
//! - Proved: `read_length` and `resolve` are exact (`specs/Lengths.antt`); that a text is a length
//!   exactly where it has the form of `specs/Grammar.antt`, and the one that it writes, is a law
//!   (`laws`). No call takes memory.
//! - Knows nothing of: which attribute a length is of, styles, fonts.
//! - Change the form of lengths: `specs/Lengths.antt` and `specs/Grammar.antt`, then
//!   `src/reading.rt`, then `rt check`. Change a unit: `specs/Lengths.antt`, then `src/lengths.rt`.
#![tactic(auto)]

pub mod laws; // of the form of lengths
mod lengths; // resolve
mod reading; // read_length

pub use lengths::{LengthText, Unit, resolve};
pub use reading::read_length;
