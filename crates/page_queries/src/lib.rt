//! What may be asked of the page of a tree, and why there is no answer.
//!
//! - Models: own.
//! - Proved: what is derived.
//! - Knows nothing of: how an answer is found (`queries`), and how a question is put (words of the
//!   command line, calls of the library for C).
//! - Add a question: here, then `queries`, and where it is put.
#![tactic(auto)]

mod query; // Query, QueryRefusal

pub use query::{Query, QueryRefusal};
