ghost use Rattle.std.specs.Prelude.{◌≡◌, ◌<◌, [], ◌++◌, length, OnOk};
ghost use Rattle.doc_io.specs.Pieces.{Puts, piece_size};
ghost use Rattle.doc_io.specs.Whole.{WritesAll};

use crate::{Sink, WriteFault, write_all};
use arrayvec::ArrayString;
use std::marker::Model;

/// How many bytes are held back at most: 16 KiB.
const PIECE: usize = 16384;

/// What is held back of a text that is written in pieces. It stands on the stack, so that no memory
/// is needed to write. Contracts see its bytes.
///
/// Whoever puts a text there calls `send` at its end.
#[derive(Debug, Drop)]
pub struct Piece {
    text: ArrayString<PIECE>,
}

impl Model for Piece {
    ghost use Rattle.std.specs.Prelude.{List, ℕ};

    ghost Value = { List ℕ };

    ghost view = { λ piece. piece.text.bytes };
}

impl Piece {
    /// Nothing is held back.
    pub fn new() -> Piece
        ensures { result ≡ [] }
    {
        Piece {
            text: ArrayString::new(),
        }
    }

    /// Puts a text behind what is held back, and writes that first where the text doesn't fit.
    pub fn put<O: Sink>(&mut self, out: &mut O, text: &str) -> Result<(), WriteFault>
        ensures { Puts (O.told out.old) (O.told out.new) self.old self.new text.now result }
    {
        if text.len() > self.text.remaining_capacity() {
            return self.put_next(out, text);
        }
        self.text.push_str(text);
        Ok(())
    }

    /// Writes what is held back.
    pub fn send<O: Sink>(&mut self, out: &mut O) -> Result<(), WriteFault>
        ensures writes { WritesAll (O.told out.old) (O.told out.new) self.old result }
        ensures empty { OnOk result (self.new ≡ []) }
    {
        write_all(out, self.text.as_str().as_bytes())?;
        self.text.clear();
        Ok(())
    }

    /// Writes what is held back, and then holds back the text or, if that is longer than a piece,
    /// writes it too.
    fn put_next<O: Sink>(&mut self, out: &mut O, text: &str) -> Result<(), WriteFault>
        requires { piece_size < length (self.old ++ text.now) }
        ensures { Puts (O.told out.old) (O.told out.new) self.old self.new text.now result }
    {
        self.send(out)?;
        if text.len() > PIECE {
            return write_all(out, text.as_bytes());
        }
        self.text.push_str(text);
        Ok(())
    }
}
