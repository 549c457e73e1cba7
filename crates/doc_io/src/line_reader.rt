ghost use Rattle.std.specs.Prelude.{◌≡◌, ◌≤◌, [], length, IfOk};
ghost use Rattle.std.specs.List.{position_or_len};
ghost use Rattle.doc_io.specs.LineReader.{GivesLine, is_feed, longest_line, most_lines};
ghost use Rattle.doc_io.specs.LineEnds.{BeginsLine, EndsLine};

use crate::held::Held;
use crate::{Failed, Inputs};
use fixed_units::Memory;
use std::alloc::Global;
use std::marker::Model;
use thiserror::Error;

/// The most bytes that a line may have: 1 MiB.
const LONGEST_LINE: usize = 1_048_576;

/// The most lines that are given.
const MOST_LINES: u32 = 65_536;

/// What a reader of lines came to.
#[derive(Clone, Copy, Debug, PartialEq, Eq)]
pub enum Line {
    /// A line, which `line` lends.
    Whole,
    /// The end of the file.
    End,
}

/// Why a line isn't given.
#[derive(Clone, Copy, Debug, PartialEq, Eq, Error)]
pub enum LineRefusal {
    /// A read failed: the inputs' count of faults rose.
    #[error("a read failed")]
    ReadFault,
    /// The line has more bytes than the longest that is given. It needn't have ended.
    #[error("the line is too long")]
    LineLong,
    /// As many lines were given as may be, and another begins.
    #[error("there are too many lines")]
    LinesSpent,
}

impl From<Failed> for LineRefusal {
    ghost use Rattle.std.specs.Prelude.{◌≡◌};
    ghost use Rattle.doc_io.specs.declared.line_reader.LineRefusal.TheVariants.{ReadFault as NotRead};

    ghost from_gives = { λ _ refusal. refusal ≡ NotRead };

    fn from(_: Failed) -> Self {
        LineRefusal::ReadFault
    }
}

/// Reads the lines of the selected file one after another, with the memory that `make` took, which
/// is twice the longest line, however long the file is.
///
/// A call reads no more of the file once the line's end was read: a line that is held to its end is
/// given without a read. After a refusal what is left of the file is as it was, so that a line can
/// be asked for again.
#[derive(Debug, Drop)]
pub struct LineReader {
    /// The bytes that were read, from the last line that was given on.
    held: Held,
    /// How many bytes of these are the last line, and how many were given, with its line feed.
    line: usize,
    taken: usize,
    given: u32,
}

impl Model for LineReader {
    ghost use Rattle.std.specs.Prelude.{◌≤◌, drop, length, take};
    ghost use Rattle.doc_io.specs.LineReader.{ReaderValue, most_lines};

    ghost Value = { ReaderValue };

    ghost view = { λ reader. record {
      held = drop reader.taken reader.held;
      line = take reader.line reader.held;
      given = reader.given;
    } };

    ghost invariant = { λ reader. (reader.line ≤ length reader.held)
        × (reader.taken ≤ length reader.held) × (reader.given ≤ most_lines) };
}

impl LineReader {
    /// A reader that gave no line yet. It takes all the memory that reading needs: 2 MiB.
    pub fn make(alloc: Global) -> Result<LineReader, Memory>
        ensures { IfOk result (λ reader. reader ≡ record { held = []; line = []; given = 0 }) }
    {
        Ok(LineReader {
            held: Held::make(alloc)?,
            line: 0,
            taken: 0,
            given: 0,
        })
    }

    /// The line that the last call of `next_line` gave, without its line feed; no byte, where that
    /// call gave none.
    pub fn line(&self) -> &[u8]
        ensures { result.now ≡ self.now.line }
    {
        &self.held.as_slice()[..self.line]
    }

    /// Goes on to the next line of the selected file. It takes no memory.
    ///
    /// A line feed ends a line; the last line may lack it. A line that is too long is refused as
    /// soon as so many bytes of it were read.
    pub fn next_line<I: Inputs>(&mut self, inputs: &mut I) -> Result<Line, LineRefusal>
        ensures { GivesLine self.old self.new (I.told inputs.old) (I.told inputs.new) result }
    {
        self.held.drop_front(self.taken);
        self.line = 0;
        self.taken = 0;
        if !begins_line(&mut self.held, inputs)? {
            return Ok(Line::End);
        }
        if self.given == MOST_LINES {
            return Err(LineRefusal::LinesSpent);
        }
        self.line = end_line(&mut self.held, inputs)?;
        self.taken = self.held.len().min(self.line + 1);
        self.given += 1;
        Ok(Line::Whole)
    }
}

/// Reads on where no byte is held, and says whether one is now.
fn begins_line<I: Inputs>(held: &mut Held, inputs: &mut I) -> Result<bool, Failed>
    ensures { BeginsLine (I.told inputs.old) (I.told inputs.new) held.old held.new result }
{
    if held.len() > 0 {
        return Ok(true);
    }
    Ok(held.read_on(inputs)? > 0)
}

/// Reads on until the first line that is held has ended, and says how many bytes it has.
fn end_line<I: Inputs>(held: &mut Held, inputs: &mut I) -> Result<usize, LineRefusal>
    ensures { EndsLine (I.told inputs.old) (I.told inputs.new) held.old held.new result }
{
    let mut length = first_length(held.as_slice());
    while length <= LONGEST_LINE && length == held.len() {
        if held.read_on(inputs)? == 0 {
            return Ok(length);
        }
        length += first_length(&held.as_slice()[length..]);
    }
    if length <= LONGEST_LINE {
        Ok(length)
    } else {
        Err(LineRefusal::LineLong)
    }
}

/// How many bytes stand before the first line feed, or all where none does.
fn first_length(bytes: &[u8]) -> usize
    ensures length { result ≡ position_or_len is_feed bytes.now }
    ensures within { result ≤ length bytes.now }
{
    match bytes.iter().position(|byte| *byte == b'\n') {
        Some(end) => end,
        None => bytes.len(),
    }
}
