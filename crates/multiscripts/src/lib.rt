//! Multiscripts: any number of script pairs behind a base and before it.
//!
//! `multi` takes the boxes of a base and of pairs of scripts, and gives the box of the whole and
//! the places of the base and of each script. `pair_shifts` of `scripts` says how far one pair is
//! moved, and all pairs are moved as far as the one that is moved farthest.
//!
//! - Models: MathML Core 3.4.3, "Prescripts and Tensor Indices"; the constants are those of
//!   OpenType MATH.
//! - Proved: the result is `multi_of` (`specs/Placing.antt`), exactly; the least gap in each pair,
//!   over which pair a base leans, and that one pair behind it stands as `sub_sup` sets it, are
//!   `laws`.
//! - Knows nothing of: trees, styles, other elements. Where scripts stand along the line
//!   (`specs/Along.antt`) is found apart from how far they move up and down (`specs/Heights.antt`).
//! - Change where they stand: `specs/Along.antt`, then `src/along.rt`, then `rt check`.
#![tactic(auto, using(fixed_units::proofs::Signed::from_bits))]

mod along; // where scripts stand along the line
mod heights; // how far they move up and down, and what they reach there
pub mod laws; // what keeps apart
mod parts; // Pair, Multi
mod placing; // multi

pub use parts::{Multi, Pair};
pub use placing::multi;
