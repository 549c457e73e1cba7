//! Fractions and stacks: where a numerator, a denominator and the rule between them stand.
//!
//! `fraction` is the one call. It takes the boxes of the two parts, the thickness of the rule in
//! units (1/1024 px) and the metrics, and gives the box of the whole, two places and the rule.
//!
//! - Models: MathML Core 3.3.2, "Fractions"; the constants are those of OpenType MATH.
//! - Proved: the result is `fraction_of` (`specs/Placing.antt`), exactly; ink keeps its least gaps
//!   (`laws`). No call takes memory.
//! - Knows nothing of: trees, styles, other elements. It sees boxes and numbers.
//! - Change a gap or a shift: `specs/Equation.antt`, then `src/equation.rt`, then `rt check`.
#![tactic(auto, using(fixed_units::proofs::Signed::from_bits))]

mod equation; // the shifts
pub mod laws; // what keeps apart, and what stands in the middle
mod lengths; // the constants at one size and style
mod parts; // Spot, Fraction
mod placing; // places, rule and box

pub use parts::{Fraction, Spot};
pub use placing::fraction;
