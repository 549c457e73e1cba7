//! Radicals: where the surd, the rule over what stands under it, and an index stand.
//!
//! `square_root` takes the box of what stands under the root and gives the box of the whole, the
//! marks of surd and rule, and the places; `root_with_index` adds an index. Lengths are in units
//! (1/1024 px).
//!
//! - Models: MathML Core 3.3.3, "Radicals"; the constants are those of OpenType MATH.
//! - Proved: the results are `square_root_of` and `root_with_index_of` (`specs/Placing.antt`),
//!   exactly; ink keeps its gap to the rule, and nothing begins before the root (`laws`). No call
//!   takes memory.
//! - Knows nothing of: trees, styles, other elements. It sees boxes and numbers.
//! - Change a gap or a height: `specs/Equation.antt`, then `src/equation.rt`, then `rt check`.
#![tactic(auto, using(fixed_units::proofs::Signed::from_bits))]

mod equation; // heights and kerns
pub mod laws; // what keeps apart, and what begins where
mod lengths; // the constants at one size and style
mod parts; // Spot, Radical
mod placing; // places, marks and boxes

pub use parts::{Radical, Spot};
pub use placing::{root_with_index, square_root};
