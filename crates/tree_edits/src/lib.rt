//! Edits of a tree and the commands of a script.
//!
//! `read_command` reads a line of a script: to show the layout, or an edit of one element. `apply`
//! edits a tree in place, or answers the first reason against the edit and leaves the tree as it
//! is; `restore` gives the tree before an edit back. Below them `path_to` finds the way down to an
//! element, and `carry_out_at` makes one change of the element at the end of a way. `Parents` finds
//! the same way for `apply_at`, by notes where these lead there, else by a look through the tree.
//!
//! - Models: the edits, the order of their refusals and their JSON form are this project's own.
//! - Proved: a line gives the command of `command_in`, and is refused exactly where it has none
//!   (`specs/Commands.antt`); `apply` gives exactly the tree of `edited`, a map over all elements,
//!   and is refused exactly where `refusal_of` has a reason and with that reason, but for want of
//!   memory (`specs/Edits.antt`); what it took gives exactly the tree before, its next id too, and
//!   `restore` takes no memory (`specs/Applying.antt`); `path_to` and `Parents::find` find an
//!   element by its id, or none exactly where none has it, and `carry_out_at` makes the tree of
//!   `changed_at` and gives what was there, all without memory (`specs/Paths.antt`); an edit of a
//!   whole tree is one such change (`specs/Laws.antt`); how many notes
//!   `Parents` has (`specs/Notes.antt`); the text that a refusal shows (`specs/Texts.antt`).
//! - Knows nothing of: fonts, styles, layout, files.
//! - Change what an edit makes of a tree or why it is refused: `specs/Edits.antt`, then
//!   `src/reasons.rt`, `src/totals.rt` or `src/planning.rt`. Change a line's form:
//!   `specs/Commands.antt`, then `src/read.rt`. Then `rt check`.
#![tactic(auto)]

mod applying; // a whole edit, and back
mod change; // of one element, in place
mod command; // Command, CommandRefusal
mod edit; // Edit, EditRefusal
mod free_ids; // ids that an element keeps
mod keys; // what a line says under each key
pub mod laws; // of the definitions
mod measure; // elements, bytes and levels
mod numbering; // ids of new elements
mod parents; // ways to elements by what was noted
mod path; // ways down a tree
mod planning; // an edit before it is carried out
mod read;
mod reasons; // against an edit of an element
mod spare; // a root for the meantime
mod totals; // of an edited tree
mod undo; // what undoing takes

pub use applying::{Taken, apply, apply_at, restore};
pub use change::{Change, Replaced, carry_out_at};
pub use command::{Command, CommandRefusal};
pub use edit::{Edit, EditRefusal};
pub use parents::Parents;
pub use path::{Path, element_at, path_to};
pub use read::read_command;
