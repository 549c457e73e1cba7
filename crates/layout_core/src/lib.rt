//! Layout of a whole tree, from the root down: each element asks its children, and is laid out over
//! their answers.
//!
//! `lay_fresh` is the call. It keeps nothing: an element that is asked in two contexts is laid out
//! in each, with all that stands below it.
//!
//! - Models: MathML Core 3.
//! - Proved: the tree that it gives is `laid_tree` of `layout_model`, exactly, and it took one step
//!   for each layout that was made for it (`specs/Made.antt`); it is refused with `Range` only
//!   where a layout that is made on the way can't be stored, and gives a tree only where all can.
//! - Knows nothing of: how an element of a kind asks, and by which equation it is laid out.
//! - Change how a kind is laid out: `layout_model`, `child_questions` and `outcomes`.
#![tactic(auto)]

mod fresh; // lay_fresh
mod slots; // the children as asked last

pub use child_questions::{Survey, first_wave, second_wave, style_of_kid, wave_one, wave_two};
pub use fresh::lay_fresh;
pub use layout_model::{Answer, Context, Laid, Offset, Outcome, Question, Stretch};
pub use outcomes::finish;
