//! Space-like elements, embellished operators, and the forms, properties and axes of operators.
//!
//! `known_of` finds out what each element of a tree is among operators, once, from the leaves up:
//! as which kind it is laid out, whether it is space-like, and the core of an embellished operator
//! (`facts_of` does it for one element over its children). A `View` is an element with its children
//! in flow, as layout sees it; `NodeView` is one of a node. `form_within` gives the form of a child
//! by its place, `operator_properties` what the dictionary and the core's attributes say of it, and
//! `stretch_axis` along which axis it stretches.
//!
//! - Models: MathML Core 3.2.4 and 3.2.5; own choices stand at their definitions.
//! - Proved: each call gives its definition exactly (`specs/Facts.antt`, `specs/Forms.antt`), for
//!   every element; what a view shows is that of an element of a tree (`specs/Seen.antt`); what
//!   layout rests on besides are laws (`laws`).
//! - Knows nothing of: fonts, sizes, boxes.
//! - Change a rule: `specs/Validity.antt`, `specs/Flow.antt`, `specs/Facts.antt` or
//!   `specs/Forms.antt`, then the file of the same matter in `src/`, then `rt check`.
#![tactic(auto)]

mod facts; // Facts, Core, facts_of
mod fences; // where the children that aren't space-like begin and end
mod flow;
mod form;
mod kinds;
mod known; // the facts of all elements of a tree
pub mod laws;
mod node_view; // a view of an element of a tree
mod operator; // the core of an `mo`, properties
mod stretch;
mod texts;
mod validity;
mod view;

pub use facts::{Core, Facts, facts_of};
pub use fences::{Fences, fences_of};
pub use flow::may_show;
pub use form::{form_of, form_within};
pub use kinds::is_led_by_its_base;
pub use known::{Known, known_of};
pub use node_view::NodeView;
pub use operator::operator_properties;
pub use stretch::stretch_axis;
pub use texts::shown_text;
pub use view::View;
