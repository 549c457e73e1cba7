//! The tree of a text, read token by token.
//!
//! `tree_by_tokens` makes the elements as their tokens come, without a JSON value between, in
//! whatever order an element has its keys. It reads a tree without a fault in which no element has
//! a key twice, only text elements have a text, and none of these has `children`, be it white space
//! or an empty array. Whoever calls it reads any other tree from its JSON value, by
//! `tree_json::read_tree`, which also tells the first fault.
//!
//! - Models: a reader of events in one pass, in place of one that builds a document first.
//! - Proved: a tree that is given is the one that `tree_of` gives for the value of the bytes
//!   (`tree_json/specs/Reading.antt`). That one is given isn't: it may be none at any time.
//! - Knows nothing of: what is at fault, edits, layout.
//! - Change the keys of an element: `tree_json`, `specs/Elements.antt`, then `specs/Keys.antt`
//!   with `src/keys.rt`, and `specs/Said.antt` with `src/said.rt`.
#![tactic(auto)]

mod attributes; // the attributes of an element
mod element; // an element and those below it
mod keys; // keys, texts and brackets
mod said; // what an element says of itself
mod seen; // what was counted so far
mod tree; // tree_by_tokens

pub use tree::tree_by_tokens;
