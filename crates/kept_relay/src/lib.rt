//! Passes over kept layouts: the answer of an element, from what is kept of it and all below it.
//!
//! `relay_element` computes what isn't kept and is needed, and keeps it from then on. Where an
//! element was regular before an edit, only its child on the way to the edit is asked again, and
//! its entry is made anew where it stands.
//!
//! - Models: this project's own; MathML Core says nothing of it.
//! - Proved: a pass gives the layout exactly, computes nothing that is kept, and nothing twice, and
//!   can be undone; it puts a run for each step, every run that was there stays, and no two entries
//!   have one where no two had (`Passes` and `Grows` of `kept_results`). Done or refused, it leaves
//!   a trace only where the end of a pass goes (`IsTidy`).
//! - Knows nothing of: edits, and by which equation an element of a kind is laid out: it takes what
//!   computes outcomes (`Finish` of `layout_model`) as a parameter.
//! - Change how what is kept is found: `entries.rt` and `earlier.rt` of `kept_results`; what is
//!   computed where nothing is: `src/relay.rt`.
#![tactic(auto)]

mod making; // an entry of before the edit, made anew
mod relay; // a pass over an element

pub use relay::relay_element;
