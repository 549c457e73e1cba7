//! The ground under every other crate: numbers and boxes in units of 1/1024 px, and lists, texts
//! and a count of steps that contracts see as lists, texts and numbers.
//!
//! - Models: the seven fields of a box are those that MathML Core 3.1.1 gives a box ("Box Model");
//!   rounding is this project's own.
//! - Proved: `round` and `half` give the one number that their relation allows
//!   (`specs/Numbers.antt`, `laws`); `fits`, `raise`, `join` and `join_all` are exact
//!   (`specs/Boxes.antt`); `List` and `Txt` are lists, a refused call leaves its list as it was,
//!   and with a `Room` that was made before, an item is put into a list without memory; `tick`
//!   alone raises a count of steps, by one.
//! - Knows nothing of: lengths as they are written, fonts, trees, files.
//! - Change a number's rule: `specs/Numbers.antt`, then `src/numbers.rt`, then `rt check`.
#![tactic(auto)]

mod boxes;
pub mod laws;
mod list;
mod memory;
mod numbers;
mod pull;
mod refusal;
mod room;
mod steps;
mod text;
mod words;

pub use boxes::{MathBox, fits, is_stored, join, join_all, raise};
pub use list::List;
pub use memory::Memory;
pub use numbers::{Ratio, half, round};
pub use pull::Pull;
pub use refusal::LayRefusal;
pub use room::Room;
pub use steps::Steps;
pub use text::Txt;
pub use words::is_word;
