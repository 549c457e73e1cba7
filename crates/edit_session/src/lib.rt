//! The session of an editor: a tree that is laid out, edited and shown.
//!
//! `Session::start` takes a tree and the metrics of a font over and lays the tree out. `edit`
//! carries an edit out and makes the layouts that the edited tree needs and that aren't kept; where
//! one of them is refused, the tree and what is kept of it are the old ones again. `show` says
//! where the boxes and marks stand, and drops the layouts that nothing needs any more. So does an
//! edit, before all else, where much is kept. `Undoable` is a session whose edits a ring undoes.
//!
//! - Models: the order of refusals is this project's own: first the reasons that the tree gives,
//!   then sizes that are out of range.
//! - Proved: a session holds a whole tree (`IsWhole`, by the type `Tree` of `math_tree`) that can
//!   be laid out (`IsInRange` of `specs/Session.antt`), and kept layouts that agree with it; an
//!   edit gives the edited tree, or is refused for its cause, and then the session holds what it
//!   held; each of its steps is a layout that the edit needs, none twice (`TakesNeeded` of
//!   `kept_edits`); when an edit drops layouts first, how many layouts and cells there are at most,
//!   and that a layout which stays needed keeps its run (`specs/Sweeping.antt`); `show` gives the
//!   boxes and marks of exactly this tree, and keeps just the layouts that it needs. What is
//!   answered is told by the tree and the metrics alone. A session is a ground of `edit_ring`: its
//!   good trees are those in range, their boxes are those of its page (`specs/Undoable.antt`).
//! - Knows nothing of: scripts and their lines, how a tree is laid out, how layouts are kept, and
//!   what is written of it.
//! - Change what an edit makes of a tree, or why it is refused: `tree_edits`. Change when layouts
//!   are dropped: `specs/Sweeping.antt`, then `src/session.rt`; what is kept: `memo_tree`; what a
//!   ring is told: `specs/Undoable.antt`.
#![tactic(auto)]

mod refusal; // SessionRefusal
mod session; // Session
mod undoable; // a session that a ring can undo

pub use refusal::SessionRefusal;
pub use session::Session;
pub use undoable::Undoable;
