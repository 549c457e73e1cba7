//! What an element asks its children, in two waves.
//!
//! `wave_one` gives the questions that an element asks first. `wave_two` gives those that wait for
//! the answers: of operators that stretch to what stands beside them, and of the rows of a table to
//! its columns. Who keeps a `Survey` of the children has both waves from it, as replies that are to
//! come (`first_wave`, `second_wave`).
//!
//! - Models: MathML Core 3, and 3.2.4.3 for what stretches.
//! - Proved: the questions are `first` and `second` of `layout_model`, exactly, and a `Survey` is
//!   `survey_of` (`specs/Surveys.antt`); a font size out of range is refused, and no other is.
//! - Knows nothing of: trees. It sees one element through a `View`.
//! - Change what is asked: `specs/Questions.antt` of `layout_model`, then `src/asks.rt`;
//!   what is seen of the children: `specs/Surveys.antt`, then `src/survey.rt`.
#![tactic(auto)]

mod asks; // which child, with which pull
mod children; // a child's style, form and axis
mod survey; // Survey
mod tables; // the columns or slots that rows are asked with
mod waves; // the questions of both waves

pub use asks::{asking, has_moved_limits};
pub use children::{base_properties, is_true, kid_axis, style_of_kid};
pub use survey::Survey;
pub use waves::{first_wave, second_wave, wave_one, wave_two};
