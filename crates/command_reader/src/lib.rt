//! Reading the lines of a script one after another.
//!
//! `CommandReader` says what each line asks for, just as `tree_edits::read_command` does, and keeps
//! its memory from line to line. A line of `show`, `text`, `attr` or `remove` is read member by
//! member as its tokens come, and only the texts that its edit keeps take memory. Any other is left
//! to `read_command`: one that brings an element, has a key twice or one that isn't its command's,
//! or is refused. `move_in` says whether a line asks for an undo or a redo.
//!
//! - Models: a reader that is made once and lent each line. The kit's `json` wants 16 KiB of
//!   cleared memory for a text, which `serde_json` takes anew each time.
//! - Proved: a line gives the command of `command_in` and is refused exactly where it has none
//!   (`tree_edits/specs/Commands.antt`); what the members of a line say is the value that
//!   `serde_json` reads (`line_of`), and the command that is made of them is that value's; which
//!   lines undo and redo (`specs/Moves.antt`).
//! - Knows nothing of: what a command does.
//! - Change a line's form: `tree_edits`, `specs/Commands.antt`, then `src/read.rt`; then here, for
//!   these four commands: `specs/Said.antt`, `src/keys.rt` and `src/said.rt`. Change which lines
//!   undo and redo: `specs/Moves.antt`, then `src/moves.rt`.
#![tactic(auto)]

mod keys; // keys, and what stands under them
mod line; // a line token by token
mod moves; // to undo and to redo
mod number; // whole numbers
mod reader; // CommandReader
mod said; // what a line says

pub use moves::{Move, move_in};
pub use reader::CommandReader;
