//! The tree of elements that is laid out. How it is read and printed is `tree_json`'s.
//!
//! A tree has elements with an id, a name, a kind, attributes and a text each, and the id that the
//! next new element gets. It is copied, and `exchange` puts another root into it, by which a crate
//! above edits it in place; attributes are put in and taken out without memory.
//!
//! - Models: the elements of MathML Core 2 and 3.
//! - Proved: every `Tree` is whole, `IsWhole` (`specs/Trees.antt`), also after an `exchange`; an
//!   attribute is `put` in, or the rest is `without` it (`specs/Attributes.antt`); a copy is equal;
//!   the elements in a node are counted from those in its children (`specs/Laws.antt`).
//! - Knows nothing of: JSON, bytes and files, fonts, styles, layout.
//! - Change what is a tree: `specs/Trees.antt`, `specs/Kinds.antt` for a name, `specs/Forms.antt`
//!   for a form or a limit, then the file of the same matter in `src/`, then `rt check`.
#![tactic(auto)]

mod attributes; // Attribute, Attributes, truth_of_word
mod forms; // names, white space, limits
mod kind;
mod laws; // how elements are counted
mod node; // Node, Head, NodeId
mod tree;

pub use attributes::{Attribute, Attributes, truth_of_word};
pub use forms::{MOST_BYTES, MOST_ELEMENTS, MOST_LEVELS, is_name, is_short_enough, is_white_space};
pub use kind::Kind;
pub use laws::elements_are_counted;
pub use node::{Head, Node, NodeId};
pub use tree::Tree;
