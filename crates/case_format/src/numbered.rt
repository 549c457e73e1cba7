use crate::cuts::cut;
use crate::fault::Fault;
use std::alloc::{AllocError, Global};
use std::fmt::Write;
use std::ops::Range;

/// The greatest number that a line may have.
const GREATEST: u64 = 0xFFFF_FFFF;

/// The numbers from one up to, not including, another.
#[derive(Clone, Copy)]
pub struct Span {
    from: u32,
    to: u32,
}

impl Span {
    /// Reads `FROM..TO`, two numbers in decimal digits, of which the first isn't above the second.
    pub fn of_text(text: &str) -> Result<Span, Fault> {
        let (from, rest) = cut(text, b'.').ok_or(Fault::NotARange)?;
        let to = behind_point(rest)?;
        let span = Span {
            from: number_of(from)?,
            to: number_of(to)?,
        };
        if span.from <= span.to {
            Ok(span)
        } else {
            Err(Fault::NotARange)
        }
    }

    /// The numbers in order.
    pub fn numbers(self) -> Range<u32> {
        self.from..self.to
    }

    /// Whether it has a number.
    pub fn has(self, number: usize) -> bool {
        self.from as usize <= number && number < self.to as usize
    }

    /// Whether its numbers are among those from 1 to the last.
    pub fn is_within(self, last: usize) -> bool {
        1 <= self.from && (self.to as usize).saturating_sub(1) <= last
    }
}

/// What stands behind a point.
fn behind_point(text: &str) -> Result<&str, Fault> {
    let (between, behind) = cut(text, b'.').ok_or(Fault::NotARange)?;
    if between.is_empty() {
        Ok(behind)
    } else {
        Err(Fault::NotARange)
    }
}

/// Reads a number, which is written in decimal digits alone.
fn number_of(text: &str) -> Result<u32, Fault> {
    let mut number = 0;
    for letter in text.as_bytes() {
        number = with_digit(number, digit_of(*letter)?)?;
    }
    if text.is_empty() {
        Err(Fault::NotARange)
    } else {
        Ok(number)
    }
}

/// The number with one digit more behind it, where it is still below 2^32.
fn with_digit(number: u32, digit: u8) -> Result<u32, Fault> {
    let longer = 10 * u64::from(number) + u64::from(digit);
    if longer <= GREATEST {
        Ok(longer as u32)
    } else {
        Err(Fault::NotARange)
    }
}

/// Reads a decimal digit.
fn digit_of(letter: u8) -> Result<u8, Fault> {
    match letter {
        b'0'..=b'9' => Ok(letter - b'0'),
        _ => Err(Fault::NotARange),
    }
}

/// A text in which a number is put: `{d}` stands for it in decimal, and `{x}` for at least four
/// upper case hexadecimal digits.
#[derive(Drop)]
pub struct Template<'a> {
    pieces: Vec<Piece<'a>>,
}

#[derive(Clone, Copy)]
enum Piece<'a> {
    Text(&'a str),
    Decimal,
    Hexadecimal,
}

impl<'a> Template<'a> {
    /// The template that a text writes. It borrows the text.
    pub fn of_text(alloc: Global, text: &'a str) -> Result<Template<'a>, Fault> {
        let mut pieces = Vec::new(alloc);
        add_parts(text, &mut pieces)?;
        Ok(Template { pieces })
    }

    /// Appends the text with this number in it, and an end.
    pub fn put(&self, number: u32, end: &str, text: &mut String) -> Result<(), AllocError> {
        for piece in self.pieces.as_slice() {
            match piece {
                Piece::Text(piece) => text.push_str(*piece)?,
                Piece::Decimal => write!(text, "{number}")?,
                Piece::Hexadecimal => write!(text, "{number:04X}")?,
            }
        }
        text.push_str(end)
    }
}

/// Adds the pieces of a text, which has no more braces than bytes.
fn add_parts<'a>(text: &'a str, pieces: &mut Vec<Piece<'a>>) -> Result<(), AllocError> {
    let mut rest = text;
    for _ in text.as_bytes() {
        let Some((part, behind)) = cut(rest, b'{') else {
            break;
        };
        pieces.push(Piece::Text(part))?;
        rest = behind_place(behind, pieces)?;
    }
    pieces.push(Piece::Text(rest))?;
    Ok(())
}

/// Adds the piece that a brace begins, and gives what stands behind it.
fn behind_place<'a>(part: &'a str, pieces: &mut Vec<Piece<'a>>) -> Result<&'a str, AllocError> {
    match place_of(part) {
        Some((place, rest)) => {
            pieces.push(place)?;
            Ok(rest)
        }
        None => {
            pieces.push(Piece::Text("{"))?;
            Ok(part)
        }
    }
}

/// The place of a number whose letter and closing brace a part begins with, and what stands behind.
fn place_of(part: &str) -> Option<(Piece<'_>, &str)> {
    let (letter, rest) = cut(part, b'}')?;
    match letter.as_bytes() {
        [b'd'] => Some((Piece::Decimal, rest)),
        [b'x'] => Some((Piece::Hexadecimal, rest)),
        _ => None,
    }
}
