ghost use Rattle.std.specs.Prelude.{◌<◌, IfOk};

use crate::cuts::cut;
use crate::fault::Fault;
use crate::files::KnownFiles;
use crate::lines::as_name;
use crate::numbered::{Span, Template};
use fixed_units::List;
use std::alloc::Global;

/// What a line adds to the file that stands above it.
#[derive(Clone, Copy)]
pub enum Content<'a> {
    /// `|TEXT`: the text and a line feed.
    Line(&'a str),
    /// `+TEXT`: the text alone.
    Text(&'a str),
    /// `~48 65 FF`: these bytes.
    Bytes(&'a str),
    /// `*FROM..TO TEXT`: a line for each number.
    LinesByRule(Span, &'a str),
    /// `&FROM..TO TEXT`: a text for each number.
    TextByRule(Span, &'a str),
    /// `<NAME`: a known file.
    File(&'a str),
    /// `<NAME FROM..TO`: lines of a known file, counted from 1.
    FileLines(&'a str, Span),
}

impl<'a> Content<'a> {
    /// Reads what stands behind a `*`.
    pub fn lines_by_rule(rule: &'a str) -> Result<Content<'a>, Fault> {
        let (span, text) = cut(rule, b' ').ok_or(Fault::NotARange)?;
        Ok(Content::LinesByRule(Span::of_text(span)?, text))
    }

    /// Reads what stands behind a `&`.
    pub fn text_by_rule(rule: &'a str) -> Result<Content<'a>, Fault> {
        let (span, text) = cut(rule, b' ').ok_or(Fault::NotARange)?;
        Ok(Content::TextByRule(Span::of_text(span)?, text))
    }

    /// Reads what stands behind a `<`.
    pub fn of_file(file: &'a str) -> Result<Content<'a>, Fault> {
        match cut(file, b' ') {
            None => Ok(Content::File(as_name(file)?)),
            Some((name, span)) => Ok(Content::FileLines(as_name(name)?, Span::of_text(span)?)),
        }
    }

    /// Adds it to the file that stands above.
    pub fn add_to(self, alloc: Global, files: &mut KnownFiles) -> Result<(), Fault> {
        match self {
            Content::Line(text) => add_line(files, text),
            Content::Text(text) => files.add(text.as_bytes()),
            Content::Bytes(pairs) => add_bytes(alloc, files, pairs),
            Content::LinesByRule(span, text) => add_by_rule(alloc, files, span, text, "\n"),
            Content::TextByRule(span, text) => add_by_rule(alloc, files, span, text, ""),
            Content::File(name) => files.add_file(alloc, name),
            Content::FileLines(name, span) => files.add_lines(alloc, name, span),
        }
    }
}

fn add_line(files: &mut KnownFiles, text: &str) -> Result<(), Fault> {
    files.add(text.as_bytes())?;
    files.add(b"\n")
}

/// Adds the text once for each number, with this number in it and an end behind it.
fn add_by_rule(
    alloc: Global,
    files: &mut KnownFiles,
    span: Span,
    text: &str,
    end: &str,
) -> Result<(), Fault> {
    let template = Template::of_text(alloc, text)?;
    let mut line = String::new(alloc);
    add_numbered(files, span, &template, end, &mut line)
}

/// Adds the text of a template for each number, one after the other in the same line.
fn add_numbered(
    files: &mut KnownFiles,
    span: Span,
    template: &Template,
    end: &str,
    line: &mut String,
) -> Result<(), Fault> {
    for number in span.numbers() {
        line.clear();
        template.put(number, end, line)?;
        files.add(line.as_bytes())?;
    }
    Ok(())
}

/// Adds bytes that are written as pairs of hexadecimal digits.
fn add_bytes(alloc: Global, files: &mut KnownFiles, pairs: &str) -> Result<(), Fault> {
    let mut bytes = List::make(alloc);
    add_pairs(files, pairs, &mut bytes)
}

/// Adds them by a list that takes them up.
fn add_pairs(files: &mut KnownFiles, pairs: &str, bytes: &mut List<u8>) -> Result<(), Fault> {
    read_pairs(pairs, bytes)?;
    files.add(bytes.as_slice())
}

fn read_pairs(pairs: &str, bytes: &mut List<u8>) -> Result<(), Fault> {
    for pair in pairs.split_ascii_whitespace() {
        bytes.push(byte_of(pair)?)?;
    }
    Ok(())
}

/// Reads two hexadecimal digits.
fn byte_of(pair: &str) -> Result<u8, Fault> {
    match pair.as_bytes() {
        [high, low] => Ok(16 * digit_of(*high)? + digit_of(*low)?),
        _ => Err(Fault::NotBytes),
    }
}

/// Reads a hexadecimal digit.
fn digit_of(letter: u8) -> Result<u8, Fault>
    ensures { IfOk result (λ digit. digit < 16) }
{
    match letter {
        b'0'..=b'9' => Ok(letter - b'0'),
        b'a'..=b'f' => Ok(letter - b'a' + 10),
        b'A'..=b'F' => Ok(letter - b'A' + 10),
        _ => Err(Fault::NotBytes),
    }
}
