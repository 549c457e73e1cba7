//! The engine for other programs: sessions that a C program holds from call to call. `embed_c` is
//! the static library over it, and `include/mathlay.h` what a C program reads.
//!
//! A handle is closed, or it keeps a desk: a session whose edits can be undone, and its last reply.
//! A handle of another kind is closed, or it keeps metrics, of which any number of sessions take
//! copies. No call has a condition: a closed handle, one that is open already, a line that is too
//! long, a buffer that is too short are told, and lose nothing.
//!
//! - Models: the lines of docs/FORMATS.md, and their replies, as `history` answers them.
//! - Proved: what each call makes of the session or the metrics that a handle keeps, and of the
//!   caller's buffer, and when it gives each of its answers (`specs/Calls.antt`); that a session
//!   which is started with metrics is the one that is opened over their bytes (a law).
//! - Knows nothing of: files, fonts, how a line is answered, how an edit is undone, what is
//!   painted.
//! - Change a call: its definition in `specs/Calls.antt`, then its function here, its export in
//!   `embed_c` and the header.
#![tactic(auto)]

mod answer; // Answer
mod boxing; // values in boxes
pub mod calls; // on a session
mod copying; // texts into buffers
mod desk; // Desk
mod font; // Font
mod frame; // Frame
mod growing; // a sink in memory
mod handle; // Handle
mod kept_reply; // KeptReply
pub mod laws; // of all files
mod loose; // Loose: a box as a raw pointer
pub mod starting; // on metrics, and a session with them

pub use answer::Answer;
pub use font::Font;
pub use frame::Frame;
pub use handle::Handle;
