//! The metrics and the tree that two files' bytes hold, and what is told where there is none.
//!
//! `metrics_in` and `tree_in` read a file's bytes, or say why they hold no metrics or no tree. A
//! `Refusal` has the one line that tells the user, and the `Status` with which a run ends.
//!
//! - Models: refusals and statuses, which are own.
//! - Proved: what is read is `metrics_in` and `tree_in` of `specs/Files.antt`, exactly, but for
//!   want of memory; the line and the status of a refusal are those of `specs/Refusals.antt`, and
//!   the number of a status that of `specs/Status.antt`.
//! - Knows nothing of: how bytes are read, how a tree is laid out, what answers a query: it names
//!   only their refusals.
//! - Change what is told of a file: `specs/Refusals.antt`, then `src/refusal.rt`; how a run can
//!   end: `specs/Status.antt`, then `src/status.rt`.
#![tactic(auto)]

mod files; // metrics and trees, by the bytes of their files
mod refusal; // why there is no session, or no answer
mod status; // how a run ends

pub use files::{TREE_LIMIT, metrics_in, metrics_of, tree_in, tree_of};
pub use refusal::Refusal;
pub use status::Status;
