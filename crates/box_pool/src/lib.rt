//! The region for kept results: runs of cells in one block of memory, with one checkpoint.
//!
//! `put` adds a run under an id of its own, and `get` lends it. Between `begin` and `commit` runs
//! are only added, so `rollback` takes back all that came since `begin` at once and without memory.
//! `sweep` keeps the runs that are listed and moves them together. Only `reserve` takes memory.
//!
//! - Models: regions (arenas) with checkpoints, as in allocators; ids in place of addresses, so
//!   that runs may be moved.
//! - Proved: a pool is a finite map from ids to lists of cells, with the map at its checkpoint and
//!   room for so many cells and runs (`specs/Region.antt`), and each call does to it exactly what
//!   its contract says; what is found under an id after a call are laws (`laws`).
//! - Knows nothing of: what a cell means.
//! - Change what contracts see: `specs/Region.antt`. How runs lie in memory: `specs/Runs.antt`,
//!   then `src/pool.rt`.
#![tactic(auto)]

mod cell; // Cell
mod compact; // runs moved together
mod grow; // room for more
pub mod laws; // what is found after a call
mod place; // where runs lie
mod pool; // Pool, RunId
mod write; // a piece written into the block

pub use cell::Cell;
pub use pool::{Pool, RunId};
