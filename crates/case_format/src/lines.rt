use crate::contents::Content;
use crate::cuts::cut;
use crate::fault::Fault;

/// A line of the input.
#[derive(Clone, Copy)]
pub enum Line<'a> {
    /// Without characters, or a comment.
    Passed,
    /// `load NAME`: a file of data/ is known from here on.
    Load(&'a str),
    /// `file NAME`: a file begins here.
    Begin(&'a str),
    /// What is added to the file that stands above.
    Content(Content<'a>),
    /// `KIND JSON`: a case.
    Case { kind: &'a str, value: &'a str },
}

impl<'a> Line<'a> {
    /// Reads a line, which has no line feed.
    pub fn of_text(text: &'a str) -> Result<Line<'a>, Fault> {
        let mut letters = text.chars();
        let Some(first) = letters.next() else {
            return Ok(Line::Passed);
        };
        match (first, letters.as_str()) {
            ('#', _) => Ok(Line::Passed),
            ('|', text) => Ok(Line::Content(Content::Line(text))),
            ('+', text) => Ok(Line::Content(Content::Text(text))),
            ('~', bytes) => Ok(Line::Content(Content::Bytes(bytes))),
            ('*', rule) => Ok(Line::Content(Content::lines_by_rule(rule)?)),
            ('&', rule) => Ok(Line::Content(Content::text_by_rule(rule)?)),
            ('<', file) => Ok(Line::Content(Content::of_file(file)?)),
            _ => Line::of_words(text),
        }
    }

    /// Reads a line that begins with a word.
    fn of_words(text: &'a str) -> Result<Line<'a>, Fault> {
        let (kind, value) = cut(text, b' ').ok_or(Fault::NoForm)?;
        if is_same(kind, "load") {
            Ok(Line::Load(as_name(value)?))
        } else if is_same(kind, "file") {
            Ok(Line::Begin(as_name(value)?))
        } else {
            Ok(Line::Case { kind, value })
        }
    }
}

/// Are these the same word?
pub fn is_same(word: &str, other: &str) -> bool {
    word == other
}

/// The text, where it has the form of a file's name.
pub fn as_name(text: &str) -> Result<&str, Fault> {
    for byte in text.as_bytes() {
        if !is_name_byte(*byte) {
            return Err(Fault::NotAName);
        }
    }
    if text.is_empty() {
        Err(Fault::NotAName)
    } else {
        Ok(text)
    }
}

fn is_name_byte(byte: u8) -> bool {
    matches!(byte, b'a'..=b'z' | b'A'..=b'Z' | b'0'..=b'9' | b'_' | b'-' | b'.')
}
