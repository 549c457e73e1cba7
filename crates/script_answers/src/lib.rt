//! The lines of a script, read and answered one after another, whatever answers them.
//!
//! `answer_lines` reads a line, has it answered, and goes on, to the script's end or to the first
//! line that passes a limit. What answers is a `Respond`: a session does, and so does a ring of
//! edits over one (both in `commands`).
//!
//! - Models: replies to lines, which are own.
//! - Proved: the replies to the lines that are left were written, or a front of them, with the
//!   cause (`AnswersLines`, `specs/Lines.antt`); one call of the private `answer_next` reads one
//!   line, and the reply to it is written when it returns (`AnswersNext`); the steps are those of
//!   some front of the lines (`TakesForScript`, `specs/Steps.antt`). That nothing is read behind
//!   the line that ends the run is code, and no clause.
//! - Knows nothing of: what is answered to a line, sessions and trees.
//! - Change the limits of a script: `doc_io`, `specs/LineReader.antt`; how its end is told:
//!   `specs/Texts.antt` and `specs/Lines.antt`, then `src/stop.rt`.
#![tactic(auto)]

mod answering; // Respond, answer_lines
mod stop; // why it ends before the script does

pub use answering::{Respond, answer_lines};
pub use stop::Stop;
