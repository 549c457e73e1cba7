//! The outcome of one element, over the replies of its children: its box, where its children stand,
//! and what it draws.
//!
//! `Equations::finish_replies` takes the replies of both waves; kept layouts call it as `Finish` of
//! `layout_model`. `finish` takes the answers alone, and asks again.
//! An `Element` is what an equation reads: the answer that counts of each child, the context, the
//! metrics.
//!
//! - Models: MathML Core 3; a file a construct, and each kind names the equation of a crate below.
//! - Proved: the outcome is `equation` of `layout_model`, exactly; it is refused exactly where one
//!   of its numbers is out of range.
//! - Knows nothing of: trees. It sees one element through a `View`.
//! - Change what is mirrored from right to left: `specs/Direction.antt` of `layout_model`, then
//!   `src/direction.rt`. Change how a kind is laid out: its arm in `specs/Equations.antt` of
//!   `layout_model`, then the function of that kind, named in `src/kinds.rt`. Which answer counts:
//!   `specs/Answers.antt` of `layout_model`, then `src/answers.rt`.
#![tactic(auto, using(fixed_units::proofs::Signed::from_bits))]

mod answers; // the answer that counts of each child
mod corners; // the corners of a base and its scripts
mod direction; // what stands in an element from right to left
mod element; // Element
mod finishing; // finish, Equations
mod fraction; // a fraction
mod kinds; // one function a kind
mod leaf; // tokens, operators and spaces
mod limits; // limits over and under a base
mod listing; // lists of offsets and marks
mod padding; // padded rows
mod pairs; // scripts in pairs
mod root; // a root with an index
mod row; // rows, errors, square roots and cells
mod script; // scripts beside a base
mod spanning; // what cells span, and the columns and rows of a table
mod table; // tables and their rows

pub use finishing::{Equations, finish};
