//! Scripts and limits: where they stand beside a base, over it and under it.
//!
//! `sub`, `sup` and `sub_sup` take the boxes of a base and of its scripts and give the box of the
//! whole and the places of the scripts, `under_over` those of limits. `limit_wave_one` and
//! `limit_wave_two` say what an element with limits asks of its children. `pair_shifts` is for
//! `multiscripts`, which moves many pairs.
//!
//! - Models: MathML Core 3.4.1, "Subscripts and Superscripts", and 3.4.2, "Underscripts and
//!   Overscripts"; the constants are those of OpenType MATH.
//! - Proved: each call is its definition (`specs/Beside.antt`, `specs/Limits.antt`,
//!   `specs/Questions.antt`), exactly; the ink of two scripts keeps its least gap, limits keep
//!   theirs and stand inside their box (`laws`). `sub`, `sup`, `sub_sup` and `under_over` take no
//!   memory.
//! - Knows nothing of: trees, styles, other elements. It sees boxes and numbers. How far scripts
//!   and limits move up and down is found apart from where they stand along the line.
//! - Change how kerns at corners count: `specs/Kerns.antt`, then `src/kerns.rt`.
//! - Change a shift: `specs/Shifts.antt`, then `src/shifts.rt`, then `rt check`; of a limit:
//!   `specs/LimitGaps.antt`, then `src/spacing.rt`.
#![tactic(auto, using(fixed_units::proofs::Signed::from_bits))]

mod asking; // the waves of limits
mod beside; // sub, sup, sub_sup
mod kerns; // how far scripts are moved at corners
pub mod laws; // what keeps apart
mod lengths; // the constants at one size
mod limits; // under_over
mod parts; // Spot, Scripted
mod shifts; // how far scripts move up and down
mod spacing; // how far limits move up and down

pub use asking::{limit_wave_one, limit_wave_two};
pub use beside::{sub, sub_sup, sup};
pub use limits::under_over;
pub use parts::{Inked, KernFrom, LimitCase, Limits, NO_CORNERS, Scripted, Shifts, Spot};
pub use shifts::pair_shifts;
