//! Standard output, and an output that takes little, is interrupted, and then takes nothing or
//! breaks.

use doc_io::{StdSink, write_all};
use std::cell::Cell;
use std::fmt::Display;
use std::io::{self, ErrorKind, Write};

/// Writes a whole piece to the runtime's output.
pub fn write_piece(rt: &impl Print, bytes: &[u8]) -> bool {
    is_written(&mut StdSink::make(io::writer(rt)), bytes)
}

/// Whether a whole piece was written. The call stands alone, so that none of its clauses is carried
/// further.
fn is_written<W: Write + Drop>(sink: &mut StdSink<W>, bytes: &[u8]) -> bool {
    write_all(sink, bytes).is_ok()
}

/// An output that prints nothing: it takes three bytes a call while it has room. Then it takes
/// none, or it breaks. Where it is interrupted, its next call fails all the same, once.
#[derive(Drop)]
struct Narrow {
    room: Cell<usize>,
    breaks: bool,
    interrupted: Cell<bool>,
}

impl Print for Narrow {
    fn print<D: Display + Drop>(&self, _value: D) -> io::Result<()> {
        Ok(())
    }

    fn println<D: Display + Drop>(&self, _value: D) -> io::Result<()> {
        Ok(())
    }

    fn write_all(&self, _bytes: &[u8]) -> io::Result<()> {
        Ok(())
    }

    fn write_some(&self, bytes: &[u8]) -> io::Result<usize> {
        if self.interrupted.replace(false) {
            return Err(io::Error::from(ErrorKind::Interrupted));
        }
        let room = self.room.get();
        if room == 0 && self.breaks {
            return Err(io::Error::from(ErrorKind::BrokenPipe));
        }
        let count = bytes.len().min(room).min(3);
        self.room.set(room - count);
        Ok(count)
    }
}

/// Tries pieces of four bytes on an output with room for eight, which is interrupted at first. An
/// interrupted call isn't tried again.
pub fn try_narrow<W: Write>(breaks: bool, out: &mut W) -> io::Result<()> {
    writeln!(out, "an output that breaks: {breaks}")?;
    let narrow = Narrow {
        room: Cell::new(8),
        breaks,
        interrupted: Cell::new(true),
    };
    let mut sink = StdSink::make(io::writer(&narrow));
    for _ in 0..4 {
        let is_whole = is_written(&mut sink, b"box ");
        let room = narrow.room.get();
        writeln!(out, "a piece is written: {is_whole}, room for {room} bytes")?;
    }
    Ok(())
}
