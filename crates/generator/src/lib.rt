//! Edits that are drawn from a seed, carried out on a tree of 833 elements in a session.
//!
//! `generate` makes the tree, begins a session over it, draws so many edits and makes each before
//! the next, and tells what came of it: a run that anyone can repeat, without a file.
//!
//! - Models: own.
//! - Proved: what is told is `generated` of the metrics, the seed and the count
//!   (`specs/Generated.antt`), exactly; each edit goes over the tree as edited so far, and one that
//!   is refused changes nothing (`specs/Folded.antt`); each step is a layout that the start or one
//!   of these edits needs (`specs/Steps.antt`).
//! - Knows nothing of: words, files and statuses, and how a tree is laid out.
//! - Change what is counted: `specs/Folded.antt`, then `src/run.rt`; the tree, the edits, or how
//!   they are told: `seeded_edits`.
#![tactic(auto)]

mod run; // generate

pub use run::generate;
