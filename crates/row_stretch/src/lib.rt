//! Rows: what a row asks of its children, and where it sets them.
//!
//! A row lays out its children in two waves. `row_wave_one` and `row_wave_two` say which child is
//! asked with which pull; operators that stretch are asked with the ink of the others.
//! `row_finish` then sets the answers side by side, wherever a `RowKids` has them. `Plan` and
//! `add_asks` serve limits too.
//!
//! - Models: MathML Core 3.3.1.2, "Layout of <mrow>", and 3.2.4.2 for what stretches.
//! - Proved: each call is its definition (`specs/Questions.antt`, `specs/Equation.antt`), exactly;
//!   how often a child is asked, and that children stand side by side, are `laws`.
//! - Knows nothing of: trees, fonts, other elements. It sees boxes and numbers. Heights and depths
//!   are joined apart from the places along the row.
//! - Change what is asked: `specs/Questions.antt`, then `src/asking.rt`. Change where a child
//!   stands: `specs/Equation.antt`, then `src/equation.rt`.
#![tactic(auto, using(fixed_units::proofs::Signed::from_bits))]

mod asking; // Plan, the waves
mod equation; // what stands between children
mod kids; // RowKids
pub mod laws; // how often a child is asked; children stand side by side
mod parts; // KidPull, Ask, RowKid, Row
mod placing; // offsets and box

pub use asking::{Plan, add_asks, row_wave_one, row_wave_two};
pub use kids::RowKids;
pub use parts::{Ask, KidPull, Row, RowKid};
pub use placing::row_finish;
