//! `metrics`: whether a metrics file is sound, as it is or with other lines in place of one.

use case_format::{Case, Fault, Fields, is_line_feed, text_in, written};
use fixed_units::List;
use metrics_file::{MOST_FILE_BYTES, MetricsRefusal, read_metrics};
use serde_json::Value;
use std::alloc::Global;
use std::fmt::Write;

/// Adds the answer of a case of `metrics`.
pub fn answer(case: Case, words: &mut String) -> Result<(), Fault> {
    let fields = Fields::of_value(case.value, &["file", "line", "lines"])?;
    let file = case.files.bytes(fields.text("file")?)?;
    if !fields.has("line") && !fields.has("lines") {
        return add_reading(case.alloc, file, words);
    }
    let mut edited = List::make(case.alloc);
    let answered = answer_edited(case.alloc, file, fields, &mut edited, words);
    drop(edited);
    answered
}

/// The answer for the file with other lines in place of one.
fn answer_edited(
    alloc: Global,
    file: &[u8],
    fields: Fields,
    edited: &mut List<u8>,
    words: &mut String,
) -> Result<(), Fault> {
    add_edited(file, fields, edited)?;
    add_reading(alloc, edited.as_slice(), words)
}

/// Adds the file with other lines in place of one.
fn add_edited(file: &[u8], fields: Fields, edited: &mut List<u8>) -> Result<(), Fault> {
    let number = fields.count("line")?;
    let lines = fields.items("lines")?;
    let mut last: u64 = 0;
    for line in file.split_inclusive(is_line_feed) {
        last = last.saturating_add(1);
        if last == number {
            add_lines(lines, edited)?;
        } else {
            edited.push_all(line)?;
        }
    }
    if 1 <= number && number <= last {
        Ok(())
    } else {
        Err(Fault::NoSuchLines)
    }
}

/// Adds lines, each with a line feed.
fn add_lines(lines: &[Value], edited: &mut List<u8>) -> Result<(), Fault> {
    for line in lines {
        edited.push_all(text_in("lines", line)?.as_bytes())?;
        edited.push(b'\n')?;
    }
    Ok(())
}

/// Whether a file's bytes are sound metrics.
fn add_reading(alloc: Global, file: &[u8], words: &mut String) -> Result<(), Fault> {
    if MOST_FILE_BYTES < file.len() {
        return Err(Fault::FileTooLong);
    }
    match read_metrics(alloc, file) {
        Ok(metrics) => {
            metrics.discard();
            written(words.push_str("ok"))
        }
        Err(MetricsRefusal::Fault(fault)) => {
            let line = fault.line;
            let kind = fault.kind;
            written(write!(words, "fault {line} {kind}"))
        }
        Err(MetricsRefusal::Memory) => Err(Fault::Memory),
    }
}
