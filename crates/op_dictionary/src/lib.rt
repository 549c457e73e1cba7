//! The operator dictionary: the spaces of an operator, whether it stretches, and along which axis.
//!
//! `category` looks up a text in a form, first among a user's operator lines (`Extra`), then in the
//! built-in table. `properties` says what a category gives its operators, and `axis` along which
//! axis a text stretches.
//!
//! - Models: MathML Core, Appendix B ("Operator Tables"). Own choices: which of its characters are
//!   built in, which of them stretch to the sides, that a user's lines come before every other rule
//!   (also where an infix vertical bar or tilde operator is `Default`).
//! - Proved: the three look-ups are `category_of`, `axis_of` (`specs/Dictionary.antt`) and
//!   `properties_of` (`specs/BuiltIn.antt`), exactly; the dictionary is a set of triples with one
//!   category for a text in a form (`laws`). `Extra::add` and `Extra::copy` alone take memory.
//! - Knows nothing of: fonts, trees, attributes of elements.
//! - Change a row: `specs/BuiltIn.antt`, then `src/built_in.rt`, then `rt check`.
#![tactic(auto)]

mod built_in; // the built-in tables, row by row
mod extra; // OperatorLine, Extra
pub mod laws;
mod lookup; // the category and the axis of a text
mod memory;
mod operator; // Form, Category, Axis, Properties
mod text; // OpText

pub use built_in::properties;
pub use extra::{Extra, OperatorLine};
pub use lookup::{axis, category};
pub use memory::Memory;
pub use operator::{Axis, Category, Form, Properties};
pub use text::OpText;
