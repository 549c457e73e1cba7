//! What layout is: the definitions that its code is proved against, and the types they speak of.
//!
//! An element is laid out in a `Context`: its style, its form, and what stretches it. It asks its
//! children in two waves (`specs/Questions.antt`), and its `Outcome` is an equation over their
//! answers (`specs/Equations.antt`). The layout of a tree is one fold of that
//! (`specs/Layout.antt`).
//!
//! - Models: MathML Core 3; one arm a kind, which names the equation of a crate below.
//! - Proved: what holds of all elements and trees, whatever their kinds (`laws`); whether an
//!   outcome can be stored (`outcome_fits`), exactly.
//! - Knows nothing of: how a layout is computed, or kept. Kept layouts get outcomes by `Finish`.
//! - Change how a kind is laid out: its arm in `specs/Questions.antt` or `specs/Equations.antt`.
#![tactic(auto)]

mod asking; // how an element asks its children
mod context; // Stretch, Context, Question
mod finish; // Finish
mod laid; // Laid
pub mod laws; // what holds of all elements and trees
mod outcome; // Answer, Offset, Outcome
mod range; // which outcomes can be stored
mod reply; // Reply
mod tables; // the cells of a table

pub use asking::Asking;
pub use context::{Context, Question, Stretch};
pub use finish::Finish;
pub use laid::Laid;
pub use outcome::{Answer, Offset, Outcome};
pub use range::outcome_fits;
pub use reply::{Answered, Reply};
pub use tables::{cells_of_rows, has_spans};
